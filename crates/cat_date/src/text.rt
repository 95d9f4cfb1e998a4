//! Days as texts of the form `2024-02-29`, read and written.
ghost use Rattle.std.specs.Prelude.{◌≡◌, ◌≤◌, ◌<◌, ◌^◌, IsTrue, IfOk, length, if◌then◌else◌, codes, bytes_eq};
ghost use Rattle.std.specs.Prelude.{string_bytes};
ghost use Rattle.std.specs.Char.{is_ascii_digit};
ghost use Rattle.std.specs.Str.{all_ascii_digits};
ghost use Rattle.std.specs.Str.Parse.{digits_value};
ghost use Rattle.cat_date.specs.Text.{day_text, day_of_text, form_of};

use crate::{DateFault, Day};
use std::alloc::{AllocError, Global};

/// The form of a day's text, with 0 for each digit.
const FORM: [u8; 10] = *b"0000-00-00";

/// The text of a day, as `2024-02-29`.
#[tactic(auto, unfolding(crate::specs::Text::day_text))]
pub fn show_day(alloc: Global, d: Day) -> Result<String, AllocError>
    ensures { IfOk result (λ text. string_bytes text ≡ day_text d) }
{
    let date = d.date();
    format!(in alloc; "{date}")
}

/// The day of a text of exactly that form; `NotADay` for any other text, and where there is no such day.
#[tactic(auto, unfolding(crate::specs::Text::day_of_text))]
pub fn read_day(text: &[u8]) -> Result<Day, DateFault>
    ensures { result ≡ day_of_text text.now }
{
    if !has_date_form(text) {
        return Err(DateFault::NotADay);
    }
    Day::of(
        decimal(&text[..4]) as i32,
        decimal(&text[5..7]),
        decimal(&text[8..10]),
    )
}

/// Whether a text has the form of a day's, also where there is no such day.
pub fn has_date_form(text: &[u8]) -> bool
    ensures value { result ≡ bytes_eq (form_of text.now) (codes "0000-00-00") }
    ensures length { IsTrue result → length text.now ≡ 10 }
{
    has_form(text, &FORM)
}

/// Whether a text has a form, in which 0 stands for each digit.
pub fn has_form(text: &[u8], form: &[u8]) -> bool
    ensures { result ≡ bytes_eq (form_of text.now) form.now }
{
    if text.len() != form.len() {
        return false;
    }
    for (i, &byte) in text.iter().enumerate() {
        if zeroed(byte) != form[i] {
            return false;
        }
    }
    true
}

/// A digit as 0, and any other byte as it is.
fn zeroed(byte: u8) -> u8
    ensures { result ≡ (if is_ascii_digit byte then 48 else byte) }
{
    if byte.is_ascii_digit() { b'0' } else { byte }
}

fn decimal(digits: &[u8]) -> u32
    requires short { length digits.now ≤ 4 }
    requires digits { IsTrue (all_ascii_digits digits.now) }
    ensures value { result ≡ digits_value 10 digits.now }
    ensures bound { result < 10000 }
{
    let mut number = 0;
    for &digit in digits {
        number = 10 * number + (digit - b'0') as u32;
    }
    number
}
