// Constants as texts.
ghost use Rattle.std.specs.Prelude.{◌≡◌, IfOk, string_bytes};
ghost use Rattle.cat_table.specs.Conditions.{constant_text};

use cat_date::show_day;
use cat_num::{decimal_text, money_text};
use cat_region::Threshold;
use std::alloc::{AllocError, Global};

/// A constant, as a run writes it.
pub(crate) fn constant_text(alloc: Global, constant: Threshold) -> Result<String, AllocError>
    ensures { IfOk result (λ text. string_bytes text ≡ constant_text constant) }
{
    match constant {
        Threshold::Whole(whole) => {
            let number = whole.get();
            format!(in alloc; "{number}")
        }
        Threshold::Money(money) => money_text(alloc, money),
        Threshold::Day(day) => show_day(alloc, day),
        Threshold::Decimal(frac) => decimal_text(alloc, frac),
    }
}
