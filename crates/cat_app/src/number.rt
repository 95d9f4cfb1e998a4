// The number of bands, as a word.
ghost use Rattle.std.specs.Prelude.{◌≡◌, ◌≤◌, IfOk, IfSome};
ghost use Rattle.cat_app.specs.Limits.{most_bands};
ghost use Rattle.cat_app.specs.Numbers.{bands_in};

use std::alloc::{AllocError, Global};

/// The most bands that a drill has.
pub const MOST_BANDS: u32 = 1000;

/// How many bands a text names: from 1 to 1,000, in plain decimals without a leading zero.
pub fn bands_in(alloc: Global, text: &str) -> Result<Option<u32>, AllocError>
    ensures named { IfOk result (λ bands. bands ≡ bands_in text.now) }
    ensures range { IfOk result (λ bands. IfSome bands (λ n. (1 ≤ n) × (n ≤ most_bands))) }
{
    let Ok(bands) = text.parse::<u32>() else {
        return Ok(None);
    };
    if bands == 0 || bands > MOST_BANDS {
        return Ok(None);
    }
    let written = format!(in alloc; "{bands}")?;
    if text == written.as_str() {
        return Ok(Some(bands));
    }
    Ok(None)
}
