// Where scopes and functions begin, with their stamps.
ghost use Rattle.std.specs.Prelude.{◌≡◌, ◌≤◌, ◌<◌, ◌+◌, ◌++◌, length, IfOk, OnOk};
ghost use Rattle.cat_pos.specs.declared.limits.TheConstants.{ENTRIES_BOUND};
ghost use Rattle.cat_verify.specs.inside.Starts.{arrivals_from, scope_arrivals, scope_starts, function_starts};

use crate::stamps::Arrival;
use cat_code::Tables;
use cat_pos::List;
use cat_verify_tables::FunctionPlace;
use std::alloc::{AllocError, Global};

/// Each entry with a number more than the one in front of it.
fn add_numbered(arrivals: &mut List<Arrival>, first: u32, entries: &[u32]) -> Result<(), AllocError>
    requires { first + length entries.now ≤ ENTRIES_BOUND }
    ensures { OnOk result (arrivals.new ≡ arrivals.old ++ arrivals_from first 0 entries.now) }
{
    for (at, &place) in entries.iter().enumerate() {
        let stamp = first + at as u32;
        arrivals.push(Arrival { place, stamp })?;
    }
    Ok(())
}

/// The entries of functions with the numbers of their scopes.
fn add_scoped(
    arrivals: &mut List<Arrival>,
    functions: &[FunctionPlace],
    entries: &[u32],
) -> Result<(), AllocError>
    requires { length functions.now ≡ length entries.now }
    ensures { OnOk result (arrivals.new ≡ arrivals.old ++ scope_arrivals functions.now entries.now) }
{
    for (at, &place) in entries.iter().enumerate() {
        let stamp = functions[at].scope;
        arrivals.push(Arrival { place, stamp })?;
    }
    Ok(())
}

/// Each scope with its number.
pub(crate) fn scope_starts(alloc: Global, tables: &Tables) -> Result<List<Arrival>, AllocError>
    requires { length tables.now.scopes ≤ ENTRIES_BOUND }
    ensures { IfOk result (λ arrivals. arrivals ≡ scope_starts tables.now) }
{
    let mut arrivals = List::new(alloc);
    add_numbered(&mut arrivals, 0, tables.scopes.as_slice())?;
    Ok(arrivals)
}

/// Each function with its number: functions are numbered behind scopes.
pub(crate) fn function_starts(alloc: Global, tables: &Tables) -> Result<List<Arrival>, AllocError>
    requires { length tables.now.scopes + length tables.now.functions < ENTRIES_BOUND }
    ensures { IfOk result (λ arrivals. arrivals ≡ function_starts tables.now) }
{
    let mut arrivals = List::new(alloc);
    let first = tables.scopes.len() as u32;
    add_numbered(&mut arrivals, first, tables.functions.as_slice())?;
    Ok(arrivals)
}

/// Each function with the number of its scope.
pub(crate) fn scoped_starts(
    alloc: Global,
    tables: &Tables,
    functions: &[FunctionPlace],
) -> Result<List<Arrival>, AllocError>
    requires { length functions.now ≡ length tables.now.functions }
    ensures { IfOk result (λ arrivals. arrivals ≡ scope_arrivals functions.now tables.now.functions) }
{
    let mut arrivals = List::new(alloc);
    add_scoped(&mut arrivals, functions, tables.functions.as_slice())?;
    Ok(arrivals)
}
