// The code of a calculus.
ghost use Rattle.std.specs.Prelude.{◌≡◌, [], OnOk, IfOk, length};
ghost use Rattle.cat_code.specs.Places.{case_places as cases_of};
ghost use Rattle.cat_lower.specs.Laying.{nothing};
ghost use Rattle.cat_lower.specs.Starts as starts;
ghost use Rattle.cat_lower.specs.Drafts.{Lays, Holds};
ghost use Rattle.cat_lower.specs.Lowered.{IsCodeOf, standing, scopes_laid, calc_laid, none};

use crate::cases::case_places;
use crate::definitions::definitions_of;
use crate::growing::fitting;
use crate::items::NumberedScope;
use crate::scopes::emit_scope;
use crate::starts::{case_starts, function_starts, outputs_of_each};
use crate::{Growing, LoweringScene};
use cat_calc::{Calc, CalcScope, CalcScopes, calculi_are_well_formed};
use cat_code::{CasePlaces, Code, Tables};
use cat_pos::{List, NumberLists, Numbers, Positions, Shared};
use cat_value::{Decls, Scope, declarations_are_sound};
use std::alloc::{AllocError, Global};

/// Code of scopes, one behind the other.
#[derive(Debug, Drop)]
struct Draft {
    growing: Growing,
    functions: Numbers,
    scopes: Numbers,
    definitions: Positions,
}

/// A scope with its terms, by the tables that serve all scopes.
fn lay_scope(
    alloc: Global,
    draft: &mut Draft,
    decls: &Decls,
    case_starts: &Numbers,
    outputs: &NumberLists,
    scope: &Scope,
    scoped: &NumberedScope,
) -> Result<(), AllocError>
    requires cases { case_starts.now ≡ starts.case_starts 0 decls.now.enumerations }
    requires outputs { outputs.now ≡ starts.outputs_of_each decls.now.scopes }
    ensures { OnOk result (Lays draft.old draft.new (standing decls.now scoped.now.number (length draft.old.functions)
        (length draft.old.definitions) scope.now scoped.now.terms.now)) }
{
    let functions = fitting(draft.functions.len())?;
    let definitions = fitting(draft.definitions.len())?;
    let function_starts = function_starts(alloc, &scope.items)?;
    let here = LoweringScene {
        alloc,
        decls,
        items: &scope.items,
        rounding: scoped.terms.rounding,
        functions,
        definitions,
        case_starts,
        function_starts: &function_starts,
        outputs,
    };
    emit_scope(
        &here,
        &mut draft.growing,
        &mut draft.functions,
        &mut draft.scopes,
        scoped,
    )?;
    let positions = definitions_of(alloc, &scoped.terms.terms)?;
    draft.definitions.append(positions)
}

fn begun(alloc: Global) -> Draft
    ensures { Holds result (record { code = nothing none; functions = []; scopes = []; definitions = [] }) }
{
    Draft {
        growing: Growing {
            instructions: List::new(alloc),
            constants: List::new(alloc),
            positions: List::new(alloc),
            targets: List::new(alloc),
        },
        functions: List::new(alloc),
        scopes: List::new(alloc),
        definitions: List::new(alloc),
    }
}

/// All scopes.
fn lay_scopes(alloc: Global, decls: &Decls, scopes: &CalcScopes) -> Result<Draft, AllocError>
    ensures { IfOk result (λ draft. Holds draft (scopes_laid decls.now 0 0 0 decls.now.scopes scopes.now none)) }
{
    let case_starts = case_starts(alloc, &decls.enumerations)?;
    let outputs = outputs_of_each(alloc, &decls.scopes)?;
    let mut draft = begun(alloc);
    for (number, terms) in scopes.as_slice().iter().enumerate() {
        let Some(scope) = decls.scopes.get(number) else {
            return Ok(draft);
        };
        let number = fitting(number)?;
        let scoped = NumberedScope { number, terms };
        lay_scope(
            alloc,
            &mut draft,
            decls,
            &case_starts,
            &outputs,
            scope,
            &scoped,
        )?;
    }
    Ok(draft)
}

/// The code that a draft of all scopes makes.
fn assembled(calc: &Calc, draft: Draft, decls: Shared<Decls>, cases: CasePlaces) -> Code
    requires draft { Holds draft (calc_laid calc.now) }
    requires decls { decls ≡ calc.now.decls }
    requires cases { cases ≡ cases_of 0 calc.now.decls.enumerations }
    ensures { IsCodeOf calc.now result }
{
    let Draft {
        growing,
        functions,
        scopes,
        definitions,
    } = draft;
    let Growing {
        instructions,
        constants,
        positions,
        targets,
    } = growing;
    let tables = Tables {
        decls,
        cases,
        scopes,
        targets,
        definitions,
        functions,
        positions,
        constants,
    };
    calculi_are_well_formed(calc);
    declarations_are_sound(calc.decls());
    Code::from_parts(tables, instructions)
}

/// The code of all scopes. Want of memory is answered too where a number would not fit 32 bits.
pub fn lower(alloc: Global, calc: &Calc) -> Result<Code, AllocError>
    ensures { IfOk result (IsCodeOf calc.now) }
{
    let draft = lay_scopes(alloc, calc.decls(), &calc.scopes)?;
    let decls = calc.decls.copy()?;
    let cases = case_places(alloc, calc.decls())?;
    Ok(assembled(calc, draft, decls, cases))
}
