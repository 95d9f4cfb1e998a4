// The scopes that a scope calls, directly or not.
ghost use Rattle.std.specs.Prelude.{◌≡◌, ◌<◌, All, IfOk, length};
ghost use Rattle.cat_depend.specs.Reached.{AreReachedFrom, calls_in};
ghost use Rattle.cat_depend.specs.inside.Marks.{MarkReached, marked};

use cat_pos::{List, Numbers};
use cat_scope::{Program, programs_are_well_formed};
use std::alloc::{AllocError, Global};

/// Marks some numbers.
fn mark_all(marks: &mut [bool], numbers: &[u32])
    requires { All (λ n. n < length marks.old) numbers.now }
    ensures { marks.new ≡ marked marks.old numbers.now }
{
    for &number in numbers {
        marks[number as usize] = true;
    }
}

/// Marks a scope and those that it calls, directly or not. A caller stands behind those that it calls, so that from the
/// end of the order on each scope is met when all its callers were.
fn marks_of(alloc: Global, program: &Program, scope: u32) -> Result<Vec<bool>, AllocError>
    requires { scope < length program.now.bodies }
    ensures { IfOk result (λ marks. MarkReached (calls_in program.now) scope marks.items) }
{
    programs_are_well_formed(program);
    let order = program.scope_order();
    let mut marks = vec![in alloc; false; program.bodies.len()]?;
    marks[scope as usize] = true;
    for at in (0..order.len()).rev() {
        let caller = order[at];
        if !marks[caller as usize] {
            continue;
        }
        mark_all(&mut marks, program.calls(caller));
    }
    Ok(marks)
}

/// The scopes that a scope calls, directly or not, by declared items or in scope calls, each once, in the program's
/// order of scopes; the scope itself is the last one. It takes time in proportion to the scopes and their calls.
pub fn audited_scopes(alloc: Global, program: &Program, scope: u32) -> Result<Numbers, AllocError>
    requires { scope < length program.now.bodies }
    ensures { IfOk result (AreReachedFrom program.now scope) }
{
    programs_are_well_formed(program);
    let marks = marks_of(alloc, program, scope)?;
    let mut scopes = List::new(alloc);
    for &number in program.scope_order() {
        if !marks[number as usize] {
            continue;
        }
        scopes.push(number)?;
    }
    Ok(scopes)
}
