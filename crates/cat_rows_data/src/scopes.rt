//! The scopes whose inputs are read.
ghost use Rattle.std.specs.Prelude.{◌≡◌, [], ◌∷◌, ◌++◌, IfOk, OnOk};
ghost use Rattle.cat_rows_data.specs.Declarations as declared;

use crate::structures::list;
use cat_pos::{List, Pos, Text};
use cat_value::{ItemDecl, ItemDecls, Kind, Scope, Scopes, Ty};
use std::alloc::{AllocError, Global};

pub fn scopes(alloc: Global) -> Result<Scopes, AllocError>
    ensures { IfOk result (λ scopes. scopes ≡ declared.scopes) }
{
    let mut scopes = List::new(alloc);
    scopes.push(types_scope(alloc)?)?;
    scopes.push(kinds_scope(alloc)?)?;
    scopes.push(income_tax_scope(alloc)?)?;
    scopes.push(tax_scope(alloc)?)?;
    Ok(scopes)
}

/// Items of each form of type.
fn types_scope(alloc: Global) -> Result<Scope, AllocError>
    ensures { IfOk result (λ scope. scope ≡ declared.types_scope) }
{
    let name = Text::from_str(alloc, "S")?;
    let integers = list(alloc, Ty::Integer)?;
    let mut items = List::new(alloc);
    add_item(alloc, &mut items, "b", Kind::Context, Ty::Boolean)?;
    add_item(alloc, &mut items, "n", Kind::Input, Ty::Integer)?;
    add_item(alloc, &mut items, "list", Kind::Context, integers)?;
    add_item(alloc, &mut items, "home", Kind::Context, Ty::Structure(1))?;
    add_item(
        alloc,
        &mut items,
        "letter",
        Kind::Context,
        Ty::Enumeration(1),
    )?;
    add_item(alloc, &mut items, "x", Kind::Output, Ty::Integer)?;
    add_item(alloc, &mut items, "t", Kind::Called(1), Ty::Boolean)?;
    Ok(Scope { name, items })
}

/// Items of each kind that the other scope lacks.
fn kinds_scope(alloc: Global) -> Result<Scope, AllocError>
    ensures { IfOk result (λ scope. scope ≡ declared.kinds_scope) }
{
    let name = Text::from_str(alloc, "Kinds")?;
    let mut items = List::new(alloc);
    add_item(alloc, &mut items, "aside", Kind::Internal, Ty::Integer)?;
    add_item(alloc, &mut items, "first", Kind::Input, Ty::Money)?;
    add_item(alloc, &mut items, "both", Kind::InputOutput, Ty::Date)?;
    add_item(alloc, &mut items, "last", Kind::ContextOutput, Ty::Decimal)?;
    Ok(Scope { name, items })
}

/// An income tax at one rate.
fn income_tax_scope(alloc: Global) -> Result<Scope, AllocError>
    ensures { IfOk result (λ scope. scope ≡ declared.income_tax_scope) }
{
    let name = Text::from_str(alloc, "IncomeTaxComputation")?;
    let mut items = List::new(alloc);
    add_item(
        alloc,
        &mut items,
        "individual",
        Kind::Input,
        Ty::Structure(2),
    )?;
    add_item(
        alloc,
        &mut items,
        "fixed_percentage",
        Kind::Internal,
        Ty::Decimal,
    )?;
    add_item(alloc, &mut items, "income_tax", Kind::Output, Ty::Money)?;
    Ok(Scope { name, items })
}

/// A tax that several persons owe, by brackets.
fn tax_scope(alloc: Global) -> Result<Scope, AllocError>
    ensures { IfOk result (λ scope. scope ≡ declared.tax_scope) }
{
    let name = Text::from_str(alloc, "Tax")?;
    let persons = list(alloc, Ty::Structure(3))?;
    let mut items = List::new(alloc);
    add_item(alloc, &mut items, "persons", Kind::Input, persons)?;
    add_item(alloc, &mut items, "due", Kind::Internal, Ty::Money)?;
    add_item(alloc, &mut items, "total", Kind::Output, Ty::Money)?;
    Ok(Scope { name, items })
}

fn add_item(
    alloc: Global,
    items: &mut ItemDecls,
    name: &str,
    kind: Kind,
    ty: Ty,
) -> Result<(), AllocError>
    ensures { OnOk result (items.new ≡ items.old ++ declared.item name.now kind ty ∷ []) }
{
    let pos = Pos::new(0, 1, 1);
    items.push(ItemDecl {
        name: Text::from_str(alloc, name)?,
        pos,
        kind,
        ty,
        condition: false,
        params: List::new(alloc),
    })
}
