// Numbers as they pass from one kind to another.
ghost use Rattle.std.specs.Prelude.{◌≡◌, pos};
ghost use Rattle.cat_num.specs.Frac.{lowest};
ghost use Rattle.cat_num.specs.Whole.{whole_product};
ghost use Rattle.cat_num.specs.Rounding.{rounded_ratio};
ghost use Rattle.cat_date.specs.Calendar.{civil_of};
ghost use Rattle.cat_scope.specs.Operators.{over_one};

use cat_date::{Day, day_of, month, number, year};
use cat_num::{Frac, Money, NumFault, Whole, money_over};

/// A whole number of cents as an amount.
fn cents(whole: Whole) -> Money
    ensures { result ≡ whole }
{
    Money::new(whole.get()).unwrap()
}

fn whole(money: Money) -> Whole
    ensures { result ≡ money }
{
    Whole::new(money.get()).unwrap()
}

/// One unit, 100 cents.
pub(crate) fn unit() -> Money
    ensures { result ≡ pos 100 }
{
    Money::new(100).unwrap()
}

/// A whole number as a fraction.
#[tactic(auto, using(crate::proofs::Ratios::ratio_one))]
pub(crate) fn over_one(whole: Whole) -> Frac
    ensures { result ≡ over_one whole }
{
    whole.over(Whole::new(1).unwrap()).unwrap()
}

/// An amount in units.
#[tactic(auto, using(crate::proofs::Ratios::ratio_hundred))]
pub(crate) fn units(money: Money) -> Frac
    ensures { result ≡ lowest money 100 }
{
    money.over(unit()).unwrap()
}

/// So many units in cents.
pub(crate) fn in_cents(whole: Whole) -> Result<Money, NumFault>
    ensures { result ≡ whole_product whole (pos 100) }
{
    match whole.mul(Whole::new(100).unwrap()) {
        Ok(product) => Ok(cents(product)),
        Err(fault) => Err(fault),
    }
}

/// An amount times a whole number.
pub(crate) fn times(money: Money, by: Whole) -> Result<Money, NumFault>
    ensures { result ≡ whole_product money by }
{
    match whole(money).mul(by) {
        Ok(product) => Ok(cents(product)),
        Err(fault) => Err(fault),
    }
}

/// A whole number times an amount.
pub(crate) fn times_of(by: Whole, money: Money) -> Result<Money, NumFault>
    ensures { result ≡ whole_product by money }
{
    match by.mul(whole(money)) {
        Ok(product) => Ok(cents(product)),
        Err(fault) => Err(fault),
    }
}

/// An amount over a whole number, to the nearest cent.
#[tactic(auto, using(crate::proofs::Ratios::quotient_one))]
pub(crate) fn over(money: Money, by: Whole) -> Result<Money, NumFault>
    ensures { result ≡ rounded_ratio money by }
{
    money_over(money, over_one(by))
}

#[tactic(auto, using(crate::proofs::Ratios::year_fits))]
pub(crate) fn year_of(day: Day) -> Whole
    ensures { result ≡ (civil_of day).year }
{
    let _number = number(day);
    Whole::new(year(day)).unwrap()
}

pub(crate) fn month_of(day: Day) -> Whole
    ensures { result ≡ pos (civil_of day).month }
{
    Whole::new(month(day)).unwrap()
}

pub(crate) fn day_in_month(day: Day) -> Whole
    ensures { result ≡ pos (civil_of day).day }
{
    Whole::new(day_of(day)).unwrap()
}
