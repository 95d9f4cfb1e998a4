//! Civil dates and durations: which days there are, durations of months and days, and how they add up and compare.
#![tactic(auto)]

mod add;
mod day;
mod fault;
mod laws;
mod rounding;
mod span;
mod text;

pub use add::add_span;
pub use day::{Day, cmp_day, day_of, days_between, month, number, year};
pub use fault::DateFault;
pub use laws::{
    days_are_dates, days_lead_from_day_to_day, numbers_are_those_of_jiff, shown_days_are_read,
};
pub use rounding::Rounding;
pub use span::{Span, cmp_span, span_add, span_neg, span_sub, span_times};
pub use text::{has_date_form, has_form, read_day, show_day};
