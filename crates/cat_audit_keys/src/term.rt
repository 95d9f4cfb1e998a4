// The keys of terms.
ghost use Rattle.std.specs.Prelude.{◌≡◌, ◌∷◌, ◌++◌, [], IfOk};
ghost use Rattle.cat_region.specs.declared.cut.Cut.{Cut};
ghost use Rattle.cat_audit_keys.specs.Keys.{dim_numbers, term_key};
ghost use Rattle.cat_audit_keys.specs.Standings.{standing};

use crate::form::Spelling;
use crate::key::Key;
use crate::spell::{Place, with_key};
use cat_pos::List;
use cat_region::Dim;
use cat_scope::Expr;
use std::alloc::{AllocError, Global};

/// A dimension: its kind, and how many cases it has.
fn dim_numbers(dim: Dim) -> (u64, u64)
    ensures { result.0 ∷ result.1 ∷ [] ≡ dim_numbers dim }
{
    match dim {
        Dim::Whole => (0, 0),
        Dim::Money => (1, 0),
        Dim::Day => (2, 0),
        Dim::Decimal => (3, 0),
        Dim::Truth => (4, 0),
        Dim::Cases(count) => (5, count as u64),
    }
}

/// The key of the term of each question on an expression of that dimension. It takes time in proportion to the
/// expression.
pub fn term_key(alloc: Global, place: Place, dim: Dim, expr: &Expr) -> Result<Key, AllocError>
    ensures { IfOk result (λ key. (cut : Cut) → key ≡ term_key
        (record { standing = standing place.function place.params; expr = expr.now; dim = dim; cut = cut })) }
{
    let mut numbers = List::new(alloc);
    let (kind, cases) = dim_numbers(dim);
    numbers.push(kind)?;
    numbers.push(cases)?;
    Ok(Key::new(with_key(alloc, numbers, place, expr)?))
}
