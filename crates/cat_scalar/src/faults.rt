// Exact results as scalars, or their faults.
ghost use Rattle.std.specs.Prelude.{◌≡◌};
ghost use Rattle.cat_scalar.specs.Scalars.{date_fault, dated_as, exact_as, num_fault};
ghost use Rattle.cat_scalar.specs.declared.scalar.Scalar.TheVariants as scalar;

use crate::{NoResult, Scalar};
use cat_date::{DateFault, Day, Span};
use cat_num::{Frac, Money, NumFault, Whole};
use cat_value::FaultKind;

fn num_fault(fault: NumFault) -> NoResult
    ensures { result ≡ num_fault fault }
{
    match fault {
        NumFault::Overflow => NoResult::Fault(FaultKind::Overflow),
        NumFault::DivisionByZero => NoResult::Fault(FaultKind::DivisionByZero),
    }
}

pub(crate) fn date_fault(fault: DateFault) -> NoResult
    ensures { result ≡ date_fault fault }
{
    match fault {
        DateFault::Overflow => NoResult::Fault(FaultKind::Overflow),
        DateFault::AmbiguousDate => NoResult::Fault(FaultKind::AmbiguousDate),
        DateFault::Uncomparable => NoResult::Fault(FaultKind::Uncomparable),
        DateFault::NotADay => NoResult::Stuck,
    }
}

pub(crate) fn whole_or(found: Result<Whole, NumFault>) -> Result<Scalar, NoResult>
    ensures { result ≡ exact_as scalar.Integer found }
{
    match found {
        Ok(made) => Ok(Scalar::Integer(made)),
        Err(fault) => Err(num_fault(fault)),
    }
}

pub(crate) fn frac_or(found: Result<Frac, NumFault>) -> Result<Scalar, NoResult>
    ensures { result ≡ exact_as scalar.Decimal found }
{
    match found {
        Ok(made) => Ok(Scalar::Decimal(made)),
        Err(fault) => Err(num_fault(fault)),
    }
}

pub(crate) fn money_or(found: Result<Money, NumFault>) -> Result<Scalar, NoResult>
    ensures { result ≡ exact_as scalar.Money found }
{
    match found {
        Ok(made) => Ok(Scalar::Money(made)),
        Err(fault) => Err(num_fault(fault)),
    }
}

pub(crate) fn day_or(found: Result<Day, DateFault>) -> Result<Scalar, NoResult>
    ensures { result ≡ dated_as scalar.Date found }
{
    match found {
        Ok(made) => Ok(Scalar::Date(made)),
        Err(fault) => Err(date_fault(fault)),
    }
}

pub(crate) fn span_or(found: Result<Span, DateFault>) -> Result<Scalar, NoResult>
    ensures { result ≡ dated_as scalar.Duration found }
{
    match found {
        Ok(made) => Ok(Scalar::Duration(made)),
        Err(fault) => Err(date_fault(fault)),
    }
}
