// The terms of the scopes of a program.
ghost use Rattle.std.specs.Prelude.{◌≡◌, ◌<◌, length, slice_get, IfOk, Some};
ghost use Rattle.cat_pos.specs.declared.limits.TheConstants.{ENTRIES_BOUND};
ghost use Rattle.cat_scope.specs.Names.{AllHave};
ghost use Rattle.cat_scope.specs.Forests.{StandsFor};
ghost use Rattle.cat_scope.specs.AllForests.{AreForestsOf};
ghost use Rattle.cat_calc.specs.inside.Items.{calc_scope_at, calc_scopes};

use crate::items::terms_of_items;
use crate::{CalcScope, CalcScopes};
use cat_pos::List;
use cat_scope::{Assertion, Assertions, Forest, Program, programs_are_well_formed};
use cat_value::declarations_are_sound;
use std::alloc::{AllocError, Global};

/// The same assertions, which share their conditions with these.
fn copy_assertions(alloc: Global, assertions: &Assertions) -> Result<Assertions, AllocError>
    ensures { IfOk result (λ copied. copied ≡ assertions.now) }
{
    let mut copies = List::new(alloc);
    for assertion in assertions.as_slice() {
        let condition = assertion.condition.copy()?;
        copies.push(Assertion {
            condition,
            keyword: assertion.keyword,
        })?;
    }
    Ok(copies)
}

/// The terms of the scope of that number.
fn calc_scope(
    alloc: Global,
    program: &Program,
    scope: usize,
    forest: &Forest,
) -> Result<CalcScope, AllocError>
    requires within { scope < length program.now.bodies }
    requires few { AllHave (λ body. length body.defs < ENTRIES_BOUND) program.now.bodies }
    requires stands { StandsFor program.now scope forest.now.targets }
    ensures { IfOk result (λ found. Some found
        ≡ calc_scope_at program.now.decls (slice_get program.now.decls.scopes scope)
        (slice_get program.now.bodies scope)) }
{
    programs_are_well_formed(program);
    let decls = program.decls();
    declarations_are_sound(decls);
    let items = decls.scopes.at(scope).items.as_slice();
    let body = program.bodies.at(scope);
    let defs = body.defs.as_slice();
    let terms = terms_of_items(alloc, decls, items, defs, forest.targets.as_slice())?;
    let order = List::from_slice(alloc, body.order.as_slice())?;
    let assertions = copy_assertions(alloc, &body.assertions)?;
    Ok(CalcScope {
        rounding: body.rounding,
        order,
        terms,
        assertions,
    })
}

/// The terms of all scopes.
pub fn calc_scopes(
    alloc: Global,
    program: &Program,
    forests: &[Forest],
) -> Result<CalcScopes, AllocError>
    requires few { AllHave (λ body. length body.defs < ENTRIES_BOUND) program.now.bodies }
    requires stand { AreForestsOf program.now forests.now }
    ensures { IfOk result (λ scopes. scopes
        ≡ calc_scopes program.now.decls program.now.decls.scopes program.now.bodies) }
{
    programs_are_well_formed(program);
    let mut scopes = List::new(alloc);
    for (scope, forest) in forests.iter().enumerate() {
        scopes.push(calc_scope(alloc, program, scope, forest)?)?;
    }
    Ok(scopes)
}
