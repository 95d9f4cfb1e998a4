//! Durations: months and days, kept apart since months differ in length.
ghost use Rattle.std.specs.Prelude.{◌≡◌, IsTrue, ◌+ℤ◌, ◌-ℤ◌, ◌*ℤ◌};
ghost use Rattle.cat_date.specs.Span.{IsSpan, is_part, span_in_range, span_sum, span_difference, span_multiple};
ghost use Rattle.cat_date.specs.Span.{span_negated, compared_spans};

use crate::DateFault;
use std::cmp::Ordering;
use std::marker::Model;

/// The greatest size of a part.
const GREATEST_PART: i128 = i64::MAX as i128;

/// A duration: months and days, each from -(2^63 - 1) to 2^63 - 1. A year is 12 months.
#[derive(Clone, Copy, PartialEq, Eq, Hash, Debug)]
pub struct Span {
    months: i64,
    days: i64,
}

impl Model for Span {
    ghost use Rattle.cat_date.specs.Span.{SpanOf, IsSpan};

    ghost Value = { SpanOf };

    ghost view = { λ span. record { months = span.months; days = span.days } };

    ghost invariant = { λ span. IsSpan (record { months = span.months; days = span.days }) };

    ghost inverse = { λ span. record { months = span.months; days = span.days } };
}

impl Span {
    /// The duration of these parts.
    pub fn from_parts(months: i64, days: i64) -> Span
        requires { IsSpan (record { months = months; days = days }) }
        ensures { result ≡ record { months = months; days = days } }
    {
        Span { months, days }
    }

    /// The months, a year counted as 12.
    pub fn months(self) -> i64
        ensures value { result ≡ self.months }
        ensures range { IsTrue (is_part result) }
    {
        self.months
    }

    /// The days.
    pub fn days(self) -> i64
        ensures value { result ≡ self.days }
        ensures range { IsTrue (is_part result) }
    {
        self.days
    }
}

fn fits(part: i128) -> bool
    ensures { result ≡ is_part part }
{
    -GREATEST_PART <= part && part <= GREATEST_PART
}

#[tactic(auto, unfolding(crate::specs::Span::span_in_range))]
fn span_of(months: i128, days: i128) -> Result<Span, DateFault>
    ensures { result ≡ span_in_range (record { months = months; days = days }) }
{
    if fits(months) && fits(days) {
        Ok(Span {
            months: months as i64,
            days: days as i64,
        })
    } else {
        Err(DateFault::Overflow)
    }
}

/// The sum, part by part; `Overflow` where a part doesn't fit.
pub fn span_add(a: Span, b: Span) -> Result<Span, DateFault>
    ensures { result ≡ span_sum a b }
{
    span_of(sum(a.months, b.months), sum(a.days, b.days))
}

/// The difference, part by part; `Overflow` where a part doesn't fit.
pub fn span_sub(a: Span, b: Span) -> Result<Span, DateFault>
    ensures { result ≡ span_difference a b }
{
    span_of(difference(a.months, b.months), difference(a.days, b.days))
}

/// Both parts times `n`; `Overflow` where a part doesn't fit.
pub fn span_times(a: Span, n: i64) -> Result<Span, DateFault>
    ensures { result ≡ span_multiple a n }
{
    span_of(product(a.months, n), product(a.days, n))
}

fn sum(a: i64, b: i64) -> i128
    ensures { result ≡ a +ℤ b }
{
    a as i128 + b as i128
}

fn difference(a: i64, b: i64) -> i128
    ensures { result ≡ a -ℤ b }
{
    a as i128 - b as i128
}

fn product(a: i64, b: i64) -> i128
    ensures { result ≡ a *ℤ b }
{
    a as i128 * b as i128
}

/// The duration backwards.
pub fn span_neg(a: Span) -> Span
    ensures { result ≡ span_negated a }
{
    Span {
        months: -a.months,
        days: -a.days,
    }
}

/// The order of two durations that both have no days or both have no months; `Uncomparable` for any other pair.
#[tactic(auto, unfolding(crate::specs::Span::compared_spans))]
pub fn cmp_span(a: Span, b: Span) -> Result<Ordering, DateFault>
    ensures { result ≡ compared_spans a b }
{
    if a.days == 0 && b.days == 0 {
        Ok(a.months.cmp(&b.months))
    } else if a.months == 0 && b.months == 0 {
        Ok(a.days.cmp(&b.days))
    } else {
        Err(DateFault::Uncomparable)
    }
}
