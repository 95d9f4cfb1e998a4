// The order of structures and enumerations, or the line of a part that leads back to what it is a part of.
ghost use Rattle.std.specs.Prelude.{◌≡◌, ◌+◌, nat_eq, IfOk, IfErr, IsTrue, take};
ghost use Rattle.cat_order.specs.Order.{AreItems, IsOrder, is_listed};
ghost use Rattle.cat_order.specs.Cycle.{DependsOn};
ghost use Rattle.cat_value.specs.Dependencies.{named_by, named_by_fields, named_by_content, named_by_cases};
ghost use Rattle.cat_value.specs.Dependencies.{type_dependencies};
ghost use Rattle.cat_depend.specs.Types.{AreThere};
ghost use Rattle.cat_verify_tables.specs.inside.Causes.{Refuses, lines_in};
ghost use Rattle.cat_verify_tables.specs.inside.Ordering.{NamesAt, HasNamingAt, IsPartLine, ClosesAt};
ghost use Rattle.cat_verify_tables.specs.inside.Ordering.{fields_of, cases_of};

use crate::TableRefusal;
use crate::numbers::past;
use cat_depend::{next_on_cycle, type_dependencies};
use cat_order::{OrderRefusal, order};
use cat_pos::Numbers;
use cat_value::{Case, Enumeration, Enumerations, Field, Structure, Structures, Ty};
use std::alloc::{AllocError, Global};

/// Whether a type names the structure of that number or, behind so many of these, the enumeration.
#[tactic(auto, using(crate::proofs::OrderLemmas::naming_types))]
fn names(structures: usize, ty: &Ty, number: u32) -> bool
    ensures { result ≡ is_listed (named_by structures ty.now) number }
{
    match ty {
        Ty::List(element) => names(structures, element.get(), number),
        Ty::Structure(structure) => *structure == number,
        Ty::Enumeration(enumeration) => is_behind(structures, *enumeration, number),
        Ty::Boolean | Ty::Integer | Ty::Decimal | Ty::Money | Ty::Date | Ty::Duration => false,
    }
}

/// Whether a number is so far behind another one.
fn is_behind(from: usize, count: u32, number: u32) -> bool
    ensures { result ≡ nat_eq (from + count) number }
{
    let number = number as usize;
    if number < from {
        return false;
    }
    number - from == count as usize
}

fn content_names(structures: usize, content: &Option<Ty>, number: u32) -> bool
    ensures { result ≡ is_listed (named_by_content structures content.now) number }
{
    match content {
        Some(ty) => names(structures, ty, number),
        None => false,
    }
}

/// The first field that names it.
fn field_naming(structures: usize, fields: &[Field], number: u32) -> usize
    requires { IsTrue (is_listed (named_by_fields structures fields.now) number) }
    ensures { NamesAt structures fields.now number result }
{
    for (index, field) in fields.iter().enumerate() {
        if names(structures, &field.ty, number) {
            return index;
        }
    }
    unreachable!()
}

/// The first case whose content names it.
fn case_naming(structures: usize, cases: &[Case], number: u32) -> usize
    requires { IsTrue (is_listed (named_by_cases structures cases.now) number) }
    ensures { HasNamingAt structures cases.now number result }
{
    for (index, case) in cases.iter().enumerate() {
        if content_names(structures, &case.content, number) {
            return index;
        }
    }
    unreachable!()
}

/// The line of the structure of that number, or the one behind them all.
fn structure_line(entries: &[Structure], first: usize, number: usize) -> Result<usize, AllocError>
    ensures { IfOk result (λ line. line ≡ first + lines_in fields_of (take number entries.now)) }
{
    let mut line = first;
    for (at, structure) in entries.iter().enumerate() {
        if at == number {
            return Ok(line);
        }
        line = past(line, structure.fields.len())?;
    }
    Ok(line)
}

/// The line of the enumeration of that number.
fn enumeration_line(
    entries: &[Enumeration],
    first: usize,
    number: usize,
) -> Result<usize, AllocError>
    ensures { IfOk result (λ line. line ≡ first + lines_in cases_of (take number entries.now)) }
{
    let mut line = first;
    for (at, enumeration) in entries.iter().enumerate() {
        if at == number {
            return Ok(line);
        }
        line = past(line, enumeration.cases.len())?;
    }
    Ok(line)
}

/// The line of a part of one structure or enumeration that names another one.
fn part_line(
    structures: &Structures,
    enumerations: &Enumerations,
    first: usize,
    number: usize,
    part: u32,
) -> Result<usize, AllocError>
    requires { DependsOn (type_dependencies structures.now enumerations.now) number part }
    ensures { IfOk result (IsPartLine structures.now enumerations.now first number part) }
{
    let count = structures.len();
    let behind_all = structure_line(structures.as_slice(), first, number)?;
    if number < count {
        let index = field_naming(count, structures.at(number).fields.as_slice(), part);
        let line = past(behind_all, index)?;
        return Ok(line);
    }
    let own = number - count;
    let begin = enumeration_line(enumerations.as_slice(), behind_all, own)?;
    let place = case_naming(count, enumerations.at(own).cases.as_slice(), part);
    let end = past(begin, place)?;
    Ok(end)
}

/// Structures, and the enumerations behind them by number, each behind what it is made of. The first structure has that
/// line.
pub(crate) fn ordered(
    alloc: Global,
    structures: &Structures,
    enumerations: &Enumerations,
    first: usize,
) -> Result<Numbers, TableRefusal>
    requires there { AreThere structures.now enumerations.now }
    requires items { AreItems (type_dependencies structures.now enumerations.now) }
    ensures order { IfOk result (IsOrder (type_dependencies structures.now enumerations.now)) }
    ensures cause { IfErr result (Refuses (ClosesAt structures.now enumerations.now first)) }
{
    let deps = type_dependencies(alloc, structures, enumerations)?;
    match order(alloc, deps.len() as u32, deps.as_slice()) {
        Ok(order) => Ok(order),
        Err(OrderRefusal::Cycle(number)) => {
            let part = next_on_cycle(alloc, deps.as_slice(), number)?;
            let line = part_line(structures, enumerations, first, number as usize, part)?;
            Err(TableRefusal::BadTable(line))
        }
        Err(OrderRefusal::Memory) => Err(TableRefusal::Memory),
    }
}
