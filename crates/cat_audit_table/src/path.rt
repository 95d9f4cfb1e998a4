// The paths that free terms are.
ghost use Rattle.std.specs.Prelude.{◌≡◌, slice_get, IfOk};
ghost use Rattle.cat_guard.specs.Terms.{field_path, input_path, path_of};

use cat_guard::InputPath;
use cat_pos::List;
use cat_scope::Expr;
use cat_value::{ItemDecl, Kind};
use std::alloc::{AllocError, Global};

/// The path of an item that is an input variable.
fn input_path(alloc: Global, items: &[ItemDecl], item: u32) -> Option<InputPath>
    ensures { result ≡ input_path item (slice_get items.now item) }
{
    match items.get(item as usize)?.kind {
        Kind::Input | Kind::InputOutput => Some(InputPath {
            item,
            fields: List::new(alloc),
        }),
        _ => None,
    }
}

/// A field further.
fn field_path(path: Option<InputPath>, field: u32) -> Result<Option<InputPath>, AllocError>
    ensures { IfOk result (λ further. further ≡ field_path field path) }
{
    let Some(mut path) = path else {
        return Ok(None);
    };
    path.fields.push(field)?;
    Ok(Some(path))
}

/// The path that an expression is: an input variable of the scope, or a path of fields from one.
#[cycle(path)]
#[tactic(auto, using(crate::proofs::Paths::paths))]
pub fn path_of(
    alloc: Global,
    items: &[ItemDecl],
    expr: &Expr,
) -> Result<Option<InputPath>, AllocError>
    ensures { IfOk result (λ path. path ≡ path_of items.now expr.now) }
{
    match expr {
        Expr::Item(_, item) => Ok(input_path(alloc, items, *item)),
        Expr::Field(_, of, field) => {
            let path = path_of(alloc, items, of.get())?;
            field_path(path, *field)
        }
        Expr::Literal(_, _)
        | Expr::Output(_, _, _)
        | Expr::Local(_, _)
        | Expr::Unary(_, _, _)
        | Expr::Binary(_, _, _, _, _)
        | Expr::And(_, _, _)
        | Expr::Or(_, _, _)
        | Expr::If(_, _, _, _)
        | Expr::Match(_, _, _)
        | Expr::IsCase(_, _, _, _)
        | Expr::Case(_, _, _, _)
        | Expr::Structure(_, _, _)
        | Expr::List(_, _)
        | Expr::ForAll(_, _, _)
        | Expr::Exists(_, _, _)
        | Expr::Map(_, _, _)
        | Expr::Filter(_, _, _)
        | Expr::Combine(_, _, _, _)
        | Expr::Contains(_, _, _, _)
        | Expr::Length(_, _)
        | Expr::Sum(_, _, _)
        | Expr::Call(_, _, _)
        | Expr::ScopeCall(_, _, _, _) => Ok(None),
    }
}
