// Values that have no parts.
ghost use Rattle.std.specs.Prelude.{◌≡◌};
ghost use Rattle.cat_scalar.specs.Scalars.{truth_of, integer_of, decimal_of, money_of, date_of, duration_of};

use cat_date::{Day, Span};
use cat_num::{Frac, Money, Whole};
use cat_value::FaultKind;

/// What is in a value that has no parts.
#[derive(Clone, Copy, PartialEq, Eq, Debug)]
pub enum Scalar {
    Boolean(bool),
    Integer(Whole),
    Decimal(Frac),
    Money(Money),
    Date(Day),
    Duration(Span),
    /// It has parts.
    Compound,
}

/// Why an operator has no result.
#[derive(Clone, Copy, PartialEq, Eq, Debug)]
pub enum NoResult {
    Fault(FaultKind),
    /// It isn't one for operands of these types.
    Stuck,
}

impl Scalar {
    pub fn truth(self) -> Result<bool, NoResult>
        ensures { result ≡ truth_of self }
    {
        match self {
            Scalar::Boolean(truth) => Ok(truth),
            _ => Err(NoResult::Stuck),
        }
    }

    pub fn integer(self) -> Result<Whole, NoResult>
        ensures { result ≡ integer_of self }
    {
        match self {
            Scalar::Integer(whole) => Ok(whole),
            _ => Err(NoResult::Stuck),
        }
    }

    pub fn decimal(self) -> Result<Frac, NoResult>
        ensures { result ≡ decimal_of self }
    {
        match self {
            Scalar::Decimal(frac) => Ok(frac),
            _ => Err(NoResult::Stuck),
        }
    }

    pub fn money(self) -> Result<Money, NoResult>
        ensures { result ≡ money_of self }
    {
        match self {
            Scalar::Money(money) => Ok(money),
            _ => Err(NoResult::Stuck),
        }
    }

    pub fn date(self) -> Result<Day, NoResult>
        ensures { result ≡ date_of self }
    {
        match self {
            Scalar::Date(day) => Ok(day),
            _ => Err(NoResult::Stuck),
        }
    }

    pub fn duration(self) -> Result<Span, NoResult>
        ensures { result ≡ duration_of self }
    {
        match self {
            Scalar::Duration(span) => Ok(span),
            _ => Err(NoResult::Stuck),
        }
    }
}
