// How two scalars of one type stand to each other.
ghost use Rattle.std.specs.Prelude.{◌≡◌};
ghost use Rattle.cat_scope.specs.Comparing.{compared, equal};
ghost use Rattle.cat_pos.specs.declared.pos.Pos.{Pos as At};
ghost use Rattle.cat_value.specs.declared.value.Value.{Value as Valued};
ghost use Rattle.cat_scalar.specs.Scalars.{scalar_of, with_position};

use crate::faults::date_fault;
use crate::{NoResult, Scalar};
use cat_date::{cmp_day, cmp_span};
use std::cmp::Ordering;

/// The order of two scalars; booleans have none.
#[inline(always)]
#[tactic(auto, using(crate::proofs::Projecting::projections))]
pub(crate) fn compared(left: Scalar, right: Scalar) -> Result<Ordering, NoResult>
    ensures { (p : At) (v w : Valued) → scalar_of v ≡ left → scalar_of w ≡ right
        → with_position p result ≡ compared p v w }
{
    match left {
        Scalar::Integer(whole) => Ok(whole.cmp(right.integer()?)),
        Scalar::Decimal(frac) => Ok(frac.cmp(right.decimal()?)),
        Scalar::Money(money) => Ok(money.cmp(right.money()?)),
        Scalar::Date(day) => Ok(cmp_day(day, right.date()?)),
        Scalar::Duration(span) => match cmp_span(span, right.duration()?) {
            Ok(order) => Ok(order),
            Err(fault) => Err(date_fault(fault)),
        },
        Scalar::Boolean(_) => Err(NoResult::Stuck),
        Scalar::Compound => Err(NoResult::Stuck),
    }
}

/// Whether two scalars are equal.
#[inline(always)]
#[tactic(auto, using(crate::proofs::Projecting::projections))]
pub(crate) fn equal(left: Scalar, right: Scalar) -> Result<bool, NoResult>
    ensures { (p : At) (v w : Valued) → scalar_of v ≡ left → scalar_of w ≡ right
        → with_position p result ≡ equal p v w }
{
    match left {
        Scalar::Boolean(truth) => Ok(truth == right.truth()?),
        _ => Ok(compared(left, right)? == Ordering::Equal),
    }
}
