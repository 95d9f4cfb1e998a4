// Fields in written order, and what their numbers tell.
ghost use Rattle.std.specs.Prelude.{◌≡◌, ◌+◌, ◌-◌, ◌&&◌, not, false, IfOk, OnOk, length, map};
ghost use Rattle.cat_value.specs.Inputs.{must_be_given as must_be};
ghost use Rattle.cat_scope.specs.Names.{scope_items};
ghost use Rattle.cat_code.specs.declared.instr.Instr.TheVariants as instr;
ghost use Rattle.cat_lower.specs.Grown.{Grown};
ghost use Rattle.cat_lower.specs.Laying.{one};
ghost use Rattle.cat_lower.specs.Pieces as words;

use crate::growing::{added, fitting, put, put_truth};
use crate::{Growing, LoweringScene};
use cat_code::Instr;
use cat_pos::List;
use cat_scope::FieldValues;
use cat_value::{ItemDecl, ItemDecls};
use std::alloc::{AllocError, Global};

/// For each number below `count` the first place where a field has it; the number of fields, where none does.
fn first_places(
    alloc: Global,
    fields: &FieldValues,
    count: usize,
) -> Result<List<usize>, AllocError>
    ensures { IfOk result (λ places. places ≡ words.indices 0 count 0 (map (λ f. f.field) fields.now)) }
{
    let mut places = List::from_vec(vec![in alloc; fields.len(); count]?);
    for at in (0..fields.len()).rev() {
        let number = fields.at(at).field as usize;
        if number >= count {
            continue;
        }
        places.set(number, at);
    }
    Ok(places)
}

/// Whether fields stand in the order of their declarations, from the first one on.
fn are_counted(fields: &FieldValues) -> bool
    ensures { result ≡ words.are_counted 0 (map (λ f. f.field) fields.now) }
{
    for (number, field) in fields.as_slice().iter().enumerate() {
        if field.field as usize != number {
            return false;
        }
    }
    true
}

/// A structure of its fields' values, which are there in written order, behind so many local names.
pub fn put_packed(
    alloc: Global,
    growing: &mut Growing,
    local: usize,
    fields: &FieldValues,
) -> Result<(), AllocError>
    ensures { OnOk result (Grown growing.old growing.new (words.packed local (map (λ f. f.field) fields.now))) }
{
    if are_counted(fields) {
        return put(growing, Instr::Pack(fitting(fields.len())?));
    }
    put_reordered(alloc, growing, local, fields)
}

fn put_reordered(
    alloc: Global,
    growing: &mut Growing,
    local: usize,
    fields: &FieldValues,
) -> Result<(), AllocError>
    ensures { OnOk result (Grown growing.old growing.new
        (words.packed_by false local (map (λ f. f.field) fields.now))) }
{
    let count = fitting(fields.len())?;
    put_binds(growing, fields.len())?;
    put_picked(alloc, growing, local, fields)?;
    put(growing, Instr::Drop(count))?;
    put(growing, Instr::Pack(count))
}

fn put_binds(growing: &mut Growing, count: usize) -> Result<(), AllocError>
    ensures { OnOk result (Grown growing.old growing.new (words.bind_all count)) }
{
    for _ in 0..count {
        put(growing, Instr::Bind)?;
    }
    Ok(())
}

/// The local names of the values in the order of the declarations.
fn put_picked(
    alloc: Global,
    growing: &mut Growing,
    local: usize,
    fields: &FieldValues,
) -> Result<(), AllocError>
    ensures { OnOk result (Grown growing.old growing.new
        (words.picked local (map (λ f. f.field) fields.now) 0 (length fields.now))) }
{
    let places = first_places(alloc, fields, fields.len())?;
    for &place in places.as_slice() {
        put_local(growing, local, fields, place)?;
    }
    Ok(())
}

/// The local name of the value at a place: the last one has the first name.
fn put_local(
    growing: &mut Growing,
    local: usize,
    fields: &FieldValues,
    place: usize,
) -> Result<(), AllocError>
    ensures { OnOk result (Grown growing.old growing.new
        (one (instr.Local (local + ((length fields.now - place) - 1))))) }
{
    let more = fields.len().saturating_sub(place).saturating_sub(1);
    put(growing, Instr::Local(fitting(added(local, more)?)?))
}

/// False for each condition of a called scope that no field gives.
pub fn put_absent(
    here: &LoweringScene,
    growing: &mut Growing,
    scope: u32,
    fields: &FieldValues,
) -> Result<(), AllocError>
    ensures { OnOk result (Grown growing.old growing.new
        (words.pass_absent 0 (map (λ f. f.field) fields.now) (scope_items here.now.decls.now scope))) }
{
    match here.decls.scopes.get(scope as usize) {
        Some(scope) => put_absent_among(here.alloc, growing, &scope.items, fields),
        None => Ok(()),
    }
}

fn put_absent_among(
    alloc: Global,
    growing: &mut Growing,
    items: &ItemDecls,
    fields: &FieldValues,
) -> Result<(), AllocError>
    ensures { OnOk result (Grown growing.old growing.new
        (words.pass_absent 0 (map (λ f. f.field) fields.now) items.now)) }
{
    let places = first_places(alloc, fields, items.len())?;
    for (number, &place) in places.as_slice().iter().enumerate() {
        put_where_absent(growing, items.at(number), number, place < fields.len())?;
    }
    Ok(())
}

fn put_where_absent(
    growing: &mut Growing,
    item: &ItemDecl,
    number: usize,
    given: bool,
) -> Result<(), AllocError>
    ensures { OnOk result (Grown growing.old growing.new
        (words.absent_code (must_be item.now.kind && item.now.condition && not given) number)) }
{
    if given {
        return Ok(());
    }
    if !item.condition {
        return Ok(());
    }
    if !item.kind.must_be_given() {
        return Ok(());
    }
    put_truth(growing, false)?;
    put(growing, Instr::Pass(fitting(number)?))
}
