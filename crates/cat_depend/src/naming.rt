// The numbers that expressions name, from the left.
ghost use Rattle.std.specs.Prelude.{◌≡◌, ◌++◌, OnOk};
ghost use Rattle.cat_scope.specs.Orders.{in_def};
ghost use Rattle.cat_depend.specs.inside.Wanted.{named, item_in, function_in, scope_in, in_each, in_fields};
ghost use Rattle.cat_depend.specs.inside.Wanted.{in_arms, in_content};

use cat_pos::{Boxed, Numbers};
use cat_scope::{Arms, Def, Expr, Exprs, FieldValues};
use std::alloc::AllocError;

/// Which numbers are wanted.
#[derive(Clone, Copy)]
pub enum Wanted {
    /// Of items: variables, called scopes and functions.
    Items,
    /// Of functions that are called.
    Functions,
    /// Of scopes that are called in scope calls.
    Scopes,
}

fn add_item(numbers: &mut Numbers, wanted: Wanted, item: u32) -> Result<(), AllocError>
    ensures { OnOk result (numbers.new ≡ numbers.old ++ item_in wanted item) }
{
    match wanted {
        Wanted::Items => numbers.push(item),
        Wanted::Functions | Wanted::Scopes => Ok(()),
    }
}

fn add_function(numbers: &mut Numbers, wanted: Wanted, function: u32) -> Result<(), AllocError>
    ensures { OnOk result (numbers.new ≡ numbers.old ++ function_in wanted function) }
{
    match wanted {
        Wanted::Items | Wanted::Functions => numbers.push(function),
        Wanted::Scopes => Ok(()),
    }
}

fn add_scope(numbers: &mut Numbers, wanted: Wanted, scope: u32) -> Result<(), AllocError>
    ensures { OnOk result (numbers.new ≡ numbers.old ++ scope_in wanted scope) }
{
    match wanted {
        Wanted::Scopes => numbers.push(scope),
        Wanted::Items | Wanted::Functions => Ok(()),
    }
}

/// Adds the numbers that an expression names, and those that its parts name.
#[cycle(named)]
#[tactic(auto, using(crate::proofs::Named::names))]
pub fn add_named(numbers: &mut Numbers, wanted: Wanted, e: &Expr) -> Result<(), AllocError>
    ensures { OnOk result (numbers.new ≡ numbers.old ++ named wanted e.now) }
{
    match e {
        Expr::Literal(_, _) | Expr::Local(_, _) => Ok(()),
        Expr::Item(_, item) | Expr::Output(_, item, _) => add_item(numbers, wanted, *item),
        Expr::Field(_, part, _)
        | Expr::Unary(_, _, part)
        | Expr::IsCase(_, part, _, _)
        | Expr::Length(_, part)
        | Expr::Sum(_, _, part) => add_named(numbers, wanted, part.get()),
        Expr::Binary(_, _, _, first, second)
        | Expr::Or(_, first, second)
        | Expr::ForAll(_, first, second)
        | Expr::Exists(_, first, second)
        | Expr::Map(_, first, second)
        | Expr::Filter(_, first, second)
        | Expr::Contains(_, _, first, second) => {
            add_named(numbers, wanted, first.get())?;
            add_named(numbers, wanted, second.get())?;
            Ok(())
        }
        Expr::And(_, first, second) => {
            add_named(numbers, wanted, first.get())?;
            add_named(numbers, wanted, second.get())?;
            Ok(())
        }
        Expr::If(_, first, second, third) | Expr::Combine(_, first, second, third) => {
            add_named(numbers, wanted, first.get())?;
            add_named(numbers, wanted, second.get())?;
            add_named(numbers, wanted, third.get())?;
            Ok(())
        }
        Expr::Match(_, matched, arms) => {
            add_named(numbers, wanted, matched.get())?;
            add_arms(numbers, wanted, arms.get())?;
            Ok(())
        }
        Expr::Case(_, _, _, content) => add_content(numbers, wanted, content),
        Expr::Structure(_, _, fields) => add_fields(numbers, wanted, fields),
        Expr::List(_, elements) => add_each(numbers, wanted, elements),
        Expr::Call(_, function, args) => {
            add_function(numbers, wanted, *function)?;
            add_each(numbers, wanted, args)?;
            Ok(())
        }
        Expr::ScopeCall(_, scope, fields, _) => {
            add_scope(numbers, wanted, *scope)?;
            add_fields(numbers, wanted, fields.get())?;
            Ok(())
        }
    }
}

#[cycle(named)]
fn add_arms(numbers: &mut Numbers, wanted: Wanted, arms: &Arms) -> Result<(), AllocError>
    ensures { OnOk result (numbers.new ≡ numbers.old ++ in_arms wanted arms.now) }
{
    for arm in arms.as_slice() {
        add_named(numbers, wanted, &arm.body)?;
    }
    Ok(())
}

#[cycle(named)]
fn add_content(
    numbers: &mut Numbers,
    wanted: Wanted,
    content: &Option<Boxed<Expr>>,
) -> Result<(), AllocError>
    ensures { OnOk result (numbers.new ≡ numbers.old ++ in_content wanted content.now) }
{
    match content {
        None => Ok(()),
        Some(part) => add_named(numbers, wanted, part.get()),
    }
}

#[cycle(named)]
fn add_each(numbers: &mut Numbers, wanted: Wanted, parts: &Exprs) -> Result<(), AllocError>
    ensures { OnOk result (numbers.new ≡ numbers.old ++ in_each wanted parts.now) }
{
    for part in parts.as_slice() {
        add_named(numbers, wanted, part)?;
    }
    Ok(())
}

#[cycle(named)]
fn add_fields(numbers: &mut Numbers, wanted: Wanted, fields: &FieldValues) -> Result<(), AllocError>
    ensures { OnOk result (numbers.new ≡ numbers.old ++ in_fields wanted fields.now) }
{
    for field in fields.as_slice() {
        add_named(numbers, wanted, &field.value)?;
    }
    Ok(())
}

/// Adds what a definition names: first in its condition, then in its consequence.
pub fn add_definition(numbers: &mut Numbers, wanted: Wanted, def: &Def) -> Result<(), AllocError>
    ensures { OnOk result (numbers.new ≡ numbers.old ++ in_def (named wanted) def.now) }
{
    if let Some(condition) = &def.condition {
        add_named(numbers, wanted, condition.get())?;
    }
    add_named(numbers, wanted, def.consequence.get())
}
