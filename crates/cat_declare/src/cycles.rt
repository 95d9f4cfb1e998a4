// That no structure and no enumeration is a part of itself.
ghost use Rattle.std.specs.Prelude.{◌≡◌, ◌<◌, ◌+◌, [], Some, IfOk, IfErr, length, slice_get};
ghost use Rattle.cat_order.specs.Order.{AreItems};
ghost use Rattle.cat_names.specs.Cycles.{type_positions};
ghost use Rattle.cat_names.specs.Accepted.{IsParsed};
ghost use Rattle.cat_names.specs.NameFaults.{name_faults};
ghost use Rattle.cat_depend.specs.Types.{AreThere};
ghost use Rattle.cat_declare.specs.Cause.{HasCause};
ghost use Rattle.cat_declare.specs.inside.Cycling.{HasOrder, Orders, dependencies};
ghost use Rattle.cat_declare.specs.inside.Parted.{IsMadeOf, declared_by};
ghost use Rattle.cat_declare.specs.inside.Tabling.{AreTables, tree_at};
ghost use Rattle.cat_declare.specs.inside.Writings.{AreDeclarations};

use crate::build::Parts;
use crate::tables::TreeTables;
use crate::written::Declarations;
use cat_depend::type_dependencies;
use cat_names::{Fault, Refusal};
use cat_order::{OrderRefusal, order};
use cat_pos::Pos;
use std::alloc::Global;

/// The position of the name of a structure or, behind these, of an enumeration.
fn position_of(declarations: &Declarations, number: usize) -> Pos
    requires declarations { AreDeclarations declarations.now }
    requires within { number < length declarations.now.structures + length declarations.now.enumerations }
    ensures { slice_get (type_positions declarations.now.tree.now) number ≡ Some result }
{
    let structures = declarations.structures.len();
    if number < structures {
        return declarations.structures.at(number).name.pos;
    }
    declarations.enumerations.at(number - structures).name.pos
}

/// A structure or an enumeration that is a part of itself.
fn check_order(alloc: Global, tables: &TreeTables, parts: &Parts) -> Result<(), Refusal>
    requires tables { AreTables tables.now }
    requires made { IsMadeOf (tree_at tables.now) parts.now }
    requires there { AreThere parts.now.structures parts.now.enumerations }
    requires items { AreItems (dependencies (declared_by parts.now)) }
    ensures { Orders (tree_at tables.now) (declared_by parts.now) result }
{
    let dependencies = type_dependencies(alloc, &parts.structures, &parts.enumerations)?;
    match order(alloc, dependencies.len() as u32, dependencies.as_slice()) {
        Ok(_) => Ok(()),
        Err(OrderRefusal::Cycle(number)) => {
            let pos = position_of(&tables.declarations, number as usize);
            Err(Refusal::Refused(Fault::TypeCycle(pos)))
        }
        Err(OrderRefusal::Memory) => Err(Refusal::Memory),
    }
}

/// Refuses where a structure or an enumeration is a part of itself.
pub fn refuse_cycles(alloc: Global, tables: &TreeTables, parts: &Parts) -> Result<(), Refusal>
    requires tables { AreTables tables.now }
    requires parsed { IsParsed (tree_at tables.now) }
    requires made { IsMadeOf (tree_at tables.now) parts.now }
    requires none { name_faults (tree_at tables.now) ≡ [] }
    ensures order { IfOk result (λ _. HasOrder (tree_at tables.now)) }
    ensures cause { IfErr result (HasCause (tree_at tables.now)) }
{
    check_order(alloc, tables, parts)
}
