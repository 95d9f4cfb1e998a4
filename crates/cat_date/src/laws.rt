//! Laws of the words that the contracts of this crate cite: each is the contract of a function that does nothing.
ghost use Rattle.std.specs.Prelude.{◌≡◌, ℕ, ℤ, ◌+ℤ◌, ◌-ℤ◌, Ok, IsTrue};
ghost use Rattle.jiff_core.specs.Calendar.{days_from_civil};
ghost use Rattle.cat_date.specs.Calendar.{IsDay, in_range, is_civil, civil_of, day_number, day_of_civil};
ghost use Rattle.cat_date.specs.Span.{span_of_days};
ghost use Rattle.cat_date.specs.Add.{day_plus_span};
ghost use Rattle.cat_date.specs.declared.rounding.Rounding.{Rounding};
ghost use Rattle.cat_date.specs.Text.{day_text, day_of_text};

/// The number of a date is the one by which `jiff` counts days.
pub fn numbers_are_those_of_jiff()
    ensures { (y : ℤ) (m d : ℕ) → IsTrue (is_civil y m d) → day_number y m d ≡ days_from_civil y m d }
{}

/// Each date has its own day, and each day its own date.
pub fn days_are_dates()
    ensures date { (y : ℤ) (m d : ℕ) → IsTrue (is_civil y m d) → civil_of (day_number y m d)
        ≡ record { year = y; month = m; day = d } }
    ensures day { (n : ℤ) → IsDay n → day_of_civil (civil_of n).year (civil_of n).month (civil_of n).day ≡ Ok n }
{}

/// What is written of a day is read as that day.
pub fn shown_days_are_read()
    ensures { (n : ℤ) → IsDay n → day_of_text (day_text n) ≡ Ok n }
{}

/// A duration of days alone adds its days, and the days between two days lead from the one to the other.
pub fn days_lead_from_day_to_day()
    ensures days { (day days : ℤ) (r : Rounding) → IsDay day → day_plus_span day (span_of_days days) r
        ≡ in_range (day +ℤ days) }
    ensures between { (later earlier : ℤ) (r : Rounding) → IsDay later → IsDay earlier
        → day_plus_span earlier (span_of_days (later -ℤ earlier)) r ≡ Ok later }
{}
