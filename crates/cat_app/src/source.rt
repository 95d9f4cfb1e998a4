// The source of a drill, and the inputs of its runs.
ghost use Rattle.std.specs.Prelude.{◌≡◌, ◌<◌, ◌≤◌, ◌++◌, IfOk, OnOk, string_bytes};
ghost use Rattle.cat_app.specs.Limits.{most_bands};
ghost use Rattle.cat_app.specs.Texts.{condition_of, definition_of, definitions_to, drill_text, income_text};

use std::alloc::{AllocError, Global};

/// What a band's definition stands under, in a source of several.
fn condition(alloc: Global, bands: u32, band: u32) -> Result<String, AllocError>
    requires bands { bands ≤ most_bands }
    requires band { band < bands }
    ensures { IfOk result (λ text. string_bytes text ≡ condition_of bands band) }
{
    let low = 1000 * band;
    let high = 1000 * (band + 1);
    if band == 0 {
        return format!(in alloc; "income < ${high}");
    }
    if band + 1 == bands {
        return format!(in alloc; "income >= ${low}");
    }
    format!(in alloc; "income >= ${low} and income < ${high}")
}

/// The line of a band's definition.
fn definition(alloc: Global, bands: u32, band: u32) -> Result<String, AllocError>
    requires bands { bands ≤ most_bands }
    requires band { band < bands }
    ensures { IfOk result (λ text. string_bytes text ≡ definition_of bands band) }
{
    if bands == 1 {
        return format!(in alloc; "  definition rate equals {band}\n");
    }
    let condition = condition(alloc, bands, band)?;
    format!(in alloc; "  definition rate under condition {condition} consequence equals {band}\n")
}

/// Adds the definitions of all bands.
fn add_definitions(alloc: Global, text: &mut String, bands: u32) -> Result<(), AllocError>
    requires { bands ≤ most_bands }
    ensures { OnOk result (string_bytes text.new ≡ string_bytes text.old ++ definitions_to bands bands) }
{
    for band in 0..bands {
        let line = definition(alloc, bands, band)?;
        text.push_str(line.as_str())?;
    }
    Ok(())
}

/// The source of so many bands, from 1 to 1,000: a scope `Bands` that gives each income the number of its band, where a
/// band has 1,000 units.
#[tactic(auto, unfolding(crate::specs::Texts::drill_text))]
pub fn drill_source(alloc: Global, bands: u32) -> Result<String, AllocError>
    requires some { 1 ≤ bands }
    requires most { bands ≤ most_bands }
    ensures { IfOk result (λ text. string_bytes text ≡ drill_text bands) }
{
    let mut text = String::from_str(
        alloc,
        "```catala\ndeclaration scope Bands:\n  input income content money\n  output rate content integer\nscope Bands:\n",
    )?;
    add_definitions(alloc, &mut text, bands)?;
    text.push_str("```\n")?;
    Ok(text)
}

/// The input with an income of so many units.
pub fn income_input(alloc: Global, units: u32) -> Result<String, AllocError>
    ensures { IfOk result (λ text. string_bytes text ≡ income_text units) }
{
    format!(in alloc; "{{\"income\":{units}}}")
}
