//! The program of one scope with two boolean outputs `x` and `y`.
ghost use Rattle.std.specs.Prelude.{◌≡◌, [], ◌∷◌, ◌++◌, replicate, IfOk, OnOk};
ghost use Rattle.cat_scope.specs.Names.{AllHave};
ghost use Rattle.cat_scope.specs.declared.defs.SourcePart.TheVariants.{Declaration, Definition};
ghost use Rattle.cat_rows_data.specs.inside.Plain.{IsPlain, scope, variable, body_of};

use cat_date::Rounding;
use cat_pos::{List, Pos, Shared, Text};
use cat_scope::{Bodies, Body, Defs, Program, SourcePart, SourceParts};
use cat_value::{Decls, ItemDecl, ItemDecls, Kind, Scope, Ty};
use std::alloc::{AllocError, Global};

fn add_variable(alloc: Global, items: &mut ItemDecls, name: &str) -> Result<(), AllocError>
    ensures { OnOk result (items.new ≡ items.old ++ variable name.now ∷ []) }
{
    let pos = Pos::new(0, 1, 1);
    items.push(ItemDecl {
        name: Text::from_str(alloc, name)?,
        pos,
        kind: Kind::Output,
        ty: Ty::Boolean,
        condition: false,
        params: List::new(alloc),
    })
}

fn scope(alloc: Global) -> Result<Scope, AllocError>
    ensures { IfOk result (λ made. made ≡ scope) }
{
    let name = Text::from_str(alloc, "S")?;
    let mut items = List::new(alloc);
    add_variable(alloc, &mut items, "x")?;
    add_variable(alloc, &mut items, "y")?;
    Ok(Scope { name, items })
}

#[tactic(auto, using(crate::proofs::PlainProgram::scope_is_sound))]
fn decls(alloc: Global) -> Result<Decls, AllocError>
    ensures { IfOk result (λ decls. decls.scopes ≡ scope ∷ []) }
{
    let mut scopes = List::new(alloc);
    scopes.push(scope(alloc)?)?;
    Ok(Decls::from_parts(List::new(alloc), List::new(alloc), scopes))
}

/// The declaration, and then so many definitions.
#[tactic(auto, using(crate::proofs::PlainProgram::one_more))]
fn source(alloc: Global, definitions: usize) -> Result<SourceParts, AllocError>
    ensures { IfOk result (λ source. source ≡ Declaration ∷ replicate definitions Definition) }
{
    let mut source = List::new(alloc);
    source.push(SourcePart::Declaration)?;
    for _ in 0..definitions {
        source.push(SourcePart::Definition)?;
    }
    Ok(source)
}

fn bodies(alloc: Global, defs: Defs) -> Result<Bodies, AllocError>
    ensures { IfOk result (λ bodies. bodies ≡ body_of defs ∷ []) }
{
    let source = source(alloc, defs.len())?;
    let mut bodies = List::new(alloc);
    bodies.push(Body {
        defs,
        assertions: List::new(alloc),
        source,
        rounding: Rounding::Up,
        order: List::from_slice(alloc, &[0, 1])?,
        calls: List::new(alloc),
    })?;
    Ok(bodies)
}

/// The program with these definitions.
#[tactic(auto, using(crate::proofs::PlainProgram::plain_requires))]
pub(crate) fn program_of(alloc: Global, defs: Defs) -> Result<Program, AllocError>
    requires { AllHave IsPlain defs }
    ensures { IfOk result (λ program. program.bodies ≡ body_of defs ∷ []) }
{
    let scope_order = List::from_slice(alloc, &[0])?;
    let decls = decls(alloc)?;
    let shared = Shared::new(alloc, decls)?;
    Ok(Program::from_parts(shared, bodies(alloc, defs)?, scope_order))
}
