// Written types, resolved. A list that is deeper than types may be high is made no deeper than that, so that no value
// is deep: it is refused before anything else looks at it.
ghost use Rattle.std.specs.Prelude.{◌≡◌, ◌++◌, IfOk, OnOk, map, option_map};
ghost use Rattle.cat_names.specs.Lookup.{base_type, nested_list};
ghost use Rattle.cat_declare.specs.inside.Made as words;
ghost use Rattle.cat_declare.specs.inside.Tabling.{AreTables, types_at};

use crate::tables::TreeTables;
use cat_check_names::Faults;
use cat_names::Fault;
use cat_pos::{Boxed, List};
use cat_tree::{Base, FieldItem, Type};
use cat_value::{HIGHEST, Ty, Tys};
use std::alloc::{AllocError, Global};

/// The type of a base.
pub fn base_of(tables: &TreeTables, base: &Base) -> Option<Ty>
    requires { AreTables tables.now }
    ensures { result ≡ base_type (types_at tables.now) base.now }
{
    match base {
        Base::Boolean => Some(Ty::Boolean),
        Base::Integer => Some(Ty::Integer),
        Base::Decimal => Some(Ty::Decimal),
        Base::Money => Some(Ty::Money),
        Base::Date => Some(Ty::Date),
        Base::Duration => Some(Ty::Duration),
        Base::Named(name) => tables.types.named(name),
    }
}

/// A number of `list of`, but no more than types may be high.
fn cut(lists: usize) -> usize
    ensures { result ≡ words.cut lists }
{
    if lists < HIGHEST as usize {
        lists
    } else {
        HIGHEST as usize
    }
}

/// A type behind so many `list of`, but no more than types may be high.
fn nested(alloc: Global, lists: usize, base: Ty) -> Result<Ty, AllocError>
    ensures { IfOk result (λ ty. ty ≡ nested_list (words.cut lists) base) }
{
    let mut ty = base;
    for _ in 0..cut(lists) {
        ty = Ty::List(Boxed::new(alloc, ty)?);
    }
    Ok(ty)
}

/// A written type; where its name names nothing, that is a fault, and some other type comes in its place.
pub fn type_of(
    alloc: Global,
    tables: &TreeTables,
    ty: &Type,
    faults: &mut Faults,
) -> Result<Ty, AllocError>
    requires { AreTables tables.now }
    ensures made { IfOk result (λ made. made ≡ words.type_made words.cut (types_at tables.now) ty.now) }
    ensures faults { OnOk result (faults.new ≡ faults.old ++ words.type_faults (types_at tables.now) ty.now) }
{
    let Some(base) = base_of(tables, &ty.base) else {
        faults.push(Fault::NameUnknown(ty.pos))?;
        return nested(alloc, ty.lists, Ty::Boolean);
    };
    nested(alloc, ty.lists, base)
}

/// The content of a case, where it has one.
pub fn content_of(
    alloc: Global,
    tables: &TreeTables,
    content: &Option<Type>,
    faults: &mut Faults,
) -> Result<Option<Ty>, AllocError>
    requires { AreTables tables.now }
    ensures made { IfOk result (λ made. made
        ≡ option_map (words.type_made words.cut (types_at tables.now)) content.now) }
    ensures faults { OnOk result (faults.new ≡ faults.old
        ++ words.content_faults (types_at tables.now) content.now) }
{
    match content {
        Some(ty) => Ok(Some(type_of(alloc, tables, ty, faults)?)),
        None => Ok(None),
    }
}

/// The type of a variable: a condition is a boolean.
pub fn variable_type_of(
    alloc: Global,
    tables: &TreeTables,
    ty: &Option<Type>,
    faults: &mut Faults,
) -> Result<Ty, AllocError>
    requires { AreTables tables.now }
    ensures made { IfOk result (λ made. made ≡ words.variable_type_made words.cut (types_at tables.now) ty.now) }
    ensures faults { OnOk result (faults.new ≡ faults.old
        ++ words.content_faults (types_at tables.now) ty.now) }
{
    match ty {
        Some(ty) => type_of(alloc, tables, ty, faults),
        None => Ok(Ty::Boolean),
    }
}

/// The types of parameters.
pub fn params_of(
    alloc: Global,
    tables: &TreeTables,
    params: &[FieldItem],
    faults: &mut Faults,
) -> Result<Tys, AllocError>
    requires { AreTables tables.now }
    ensures made { IfOk result (λ made. made
        ≡ map (λ f. words.type_made words.cut (types_at tables.now) f.ty) params.now) }
    ensures faults { OnOk result (faults.new ≡ faults.old
        ++ words.field_faults (types_at tables.now) params.now) }
{
    let mut types = List::new(alloc);
    for param in params {
        types.push(type_of(alloc, tables, &param.ty, faults)?)?;
    }
    Ok(types)
}
