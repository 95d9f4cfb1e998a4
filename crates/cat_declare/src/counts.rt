// Names that stand twice in declarations, and counts that they pass.
ghost use Rattle.std.specs.Prelude.{◌≡◌, ◌++◌, OnOk, map, flat_map};
ghost use Rattle.cat_names.specs.DeclarationFaults.{past, param_faults, declaration_faults};
ghost use Rattle.cat_names.specs.Written.{positions};

use cat_check_names::{Faults, Written, add_repeated};
use cat_names::{Fault, MOST_CASES, MOST_ITEMS, MOST_PARAMETERS};
use cat_pos::List;
use cat_tree::{Item, Variable};
use std::alloc::{AllocError, Global};

/// Adds the first of some things past a limit, where so many may stand.
fn add_past<T: Written>(
    limit: usize,
    things: &List<T>,
    faults: &mut Faults,
) -> Result<(), AllocError>
    ensures { OnOk result (faults.new ≡ faults.old ++ past limit (positions (map T.written things.now))) }
{
    match things.get(limit) {
        Some(thing) => faults.push(Fault::TooMany(thing.written().pos)),
        None => Ok(()),
    }
}

/// The parameters of a variable.
fn add_params(alloc: Global, variable: &Variable, faults: &mut Faults) -> Result<(), AllocError>
    ensures { OnOk result (faults.new ≡ faults.old ++ param_faults variable.now) }
{
    match variable {
        Variable::Own(_, _, _, _, params) => {
            add_repeated(alloc, params.as_slice(), faults)?;
            add_past(MOST_PARAMETERS, params, faults)
        }
        Variable::Called(_, _) => Ok(()),
    }
}

/// The parameters of variables.
fn add_all_params(
    alloc: Global,
    variables: &[Variable],
    faults: &mut Faults,
) -> Result<(), AllocError>
    ensures { OnOk result (faults.new ≡ faults.old ++ flat_map param_faults variables.now) }
{
    for variable in variables {
        add_params(alloc, variable, faults)?;
    }
    Ok(())
}

/// A declaration.
fn add_declaration(alloc: Global, item: &Item, faults: &mut Faults) -> Result<(), AllocError>
    ensures { OnOk result (faults.new ≡ faults.old ++ declaration_faults item.now) }
{
    match item {
        Item::Structure(_, _, fields) => add_repeated(alloc, fields.as_slice(), faults),
        Item::Enumeration(_, _, cases) => {
            add_repeated(alloc, cases.as_slice(), faults)?;
            add_past(MOST_CASES, cases, faults)
        }
        Item::Scope(_, _, variables) => {
            add_repeated(alloc, variables.as_slice(), faults)?;
            add_past(MOST_ITEMS, variables, faults)?;
            add_all_params(alloc, variables.as_slice(), faults)
        }
        Item::Block(_) => Ok(()),
    }
}

/// Names that stand twice in declarations, and the first thing past each count of theirs.
pub fn add_declarations(
    alloc: Global,
    items: &[Item],
    faults: &mut Faults,
) -> Result<(), AllocError>
    ensures { OnOk result (faults.new ≡ faults.old ++ flat_map declaration_faults items.now) }
{
    for item in items {
        add_declaration(alloc, item, faults)?;
    }
    Ok(())
}
