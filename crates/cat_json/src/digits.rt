//! Texts of digits.
ghost use Rattle.std.specs.Prelude.{◌≡◌, ◌+◌, ◌*◌, ◌^◌, ◌<◌, ◌≤◌, IsTrue, length};
ghost use Rattle.std.specs.Option.{option_map};
ghost use Rattle.std.specs.Str.{all_ascii_digits};
ghost use Rattle.cat_num.specs.Reading.{split_at, number_after};
ghost use Rattle.cat_json.specs.Numerals.{are_digits, has_minus, without_minus};

/// Whether a text is of one digit or more.
pub(crate) fn are_digits(text: &[u8]) -> bool
    ensures { result ≡ are_digits text.now }
{
    !text.is_empty() && all_digits(text)
}

fn all_digits(text: &[u8]) -> bool
    ensures { result ≡ all_ascii_digits text.now }
{
    for &byte in text {
        if !byte.is_ascii_digit() {
            return false;
        }
    }
    true
}

/// The number whose digits are those of a number and then these.
#[tactic(auto, using(crate::proofs::DigitSteps::digits))]
pub(crate) fn number_after(number: u128, digits: &[u8]) -> u128
    requires small { number < 10 ^ 19 }
    requires few { length digits.now ≤ 19 }
    requires digits { IsTrue (all_ascii_digits digits.now) }
    ensures value { result ≡ number_after number digits.now }
    ensures bound { result < (number + 1) * 10 ^ length digits.now }
{
    let mut number = number;
    for &digit in digits {
        number = 10 * number + (digit - b'0') as u128;
    }
    number
}

/// What stands before and behind the first mark, where there is one.
pub(crate) fn split(text: &[u8], mark: u8) -> Option<(&[u8], &[u8])>
    ensures { option_map (λ parts. (parts.0.now, parts.1.now)) result ≡ split_at mark text.now }
{
    for (i, &byte) in text.iter().enumerate() {
        if byte == mark {
            return Some((&text[..i], &text[i + 1..]));
        }
    }
    None
}

pub(crate) fn has_minus(text: &[u8]) -> bool
    ensures { result ≡ has_minus text.now }
{
    !text.is_empty() && text[0] == b'-'
}

pub(crate) fn without_minus(text: &[u8]) -> &[u8]
    ensures { result.now ≡ without_minus text.now }
{
    if has_minus(text) { &text[1..] } else { text }
}
