// The line of a leaf.
ghost use Rattle.std.specs.Prelude.{◌≡◌, ◌<◌, ◌++◌, codes, IfOk, OnOk, IfSome, length, slice_get};
ghost use Rattle.std.specs.Prelude.{string_bytes};
ghost use Rattle.cat_region.specs.Regions.{IsInhabited};
ghost use Rattle.cat_guard.specs.Levels.{AreLiveTo};
ghost use Rattle.cat_guard.specs.Valuations.{dims_of};
ghost use Rattle.cat_search.specs.Searched.{everything};
ghost use Rattle.cat_search.specs.Ways.{led_to};
ghost use Rattle.cat_table.specs.Conditions as conditions;
ghost use Rattle.cat_table.specs.Rows as rows;
ghost use Rattle.cat_table.specs.Rows.{ended};
ghost use Rattle.cat_table.specs.inside.Here.{naming_at};
ghost use Rattle.cat_table.specs.inside.Nodes.{row_at};

use crate::decision::verdict_text;
use crate::scene::TableScene;
use crate::term::cut_text;
use cat_guard::Levels;
use cat_region::Region;
use cat_search::{Answer, Way};
use std::alloc::{AllocError, Global};

/// What an answer to an atom of the table says.
fn answer_text(here: &TableScene, answer: Answer) -> Result<String, AllocError>
    ensures { IfOk result (λ text. string_bytes text ≡ conditions.answer_text (naming_at here.now)
        here.now.table.now.terms here.now.table.now.atoms answer) }
{
    let Answer { atom, yes } = answer;
    let Some(atom) = here.table.atoms.get(atom) else {
        return Ok(String::new(here.alloc));
    };
    match here.table.terms.get(atom.term) {
        Some(term) => cut_text(here, term, atom.cut, yes),
        None => Ok(String::new(here.alloc)),
    }
}

/// Adds answers behind others.
fn push_more(here: &TableScene, text: &mut String, answers: &[Answer]) -> Result<(), AllocError>
    ensures { OnOk result (string_bytes text.new ≡ string_bytes text.old ++ conditions.more_text (naming_at here.now)
        here.now.table.now.terms here.now.table.now.atoms answers.now) }
{
    for &answer in answers {
        let said = answer_text(here, answer)?;
        text.push_str(" and ")?;
        text.push_str(said.as_str())?;
    }
    Ok(())
}

/// Answers from the root on, joined by `and`.
fn way_text(here: &TableScene, answers: &[Answer]) -> Result<String, AllocError>
    ensures { IfOk result (λ text. string_bytes text ≡ conditions.way_text (naming_at here.now)
        here.now.table.now.terms here.now.table.now.atoms answers.now) }
{
    match answers {
        [] => String::from_str(here.alloc, "always"),
        [first, more @ ..] => {
            let mut text = answer_text(here, *first)?;
            push_more(here, &mut text, more)?;
            Ok(text)
        }
    }
}

/// Adds a line with its line feed.
pub(crate) fn push_line(text: &mut String, line: &str) -> Result<(), AllocError>
    ensures { OnOk result (string_bytes text.new ≡ string_bytes text.old ++ ended line.now) }
{
    text.push_str(line)?;
    text.push_str("\n")
}

/// What decides under some conditions.
fn joined(alloc: Global, conditions: &str, verdict: &str) -> Result<String, AllocError>
    ensures { IfOk result (λ text. string_bytes text ≡ conditions.now ++ (codes " : " ++ verdict.now)) }
{
    format!(in alloc; "{conditions} : {verdict}")
}

/// The line of the leaf at the end of a way, with its region and what is live on the way.
fn row_text(
    here: &TableScene,
    target: u32,
    way: &Way,
    region: &Region,
    levels: &Levels,
) -> Result<String, AllocError>
    requires target { target < length here.now.table.now.targets }
    requires dims { region.now.dims ≡ dims_of here.now.table.now.terms }
    requires narrowings { region.now.narrowings
        ≡ (led_to here.now.table.now.atoms (everything here.now.table.now.terms) way.now).narrowings }
    requires some { IsInhabited region.now }
    requires live { IfSome (slice_get here.now.table.now.targets target)
        (λ t. AreLiveTo here.now.table.now.atoms t region.now levels.now) }
    ensures { IfSome (slice_get here.now.table.now.targets target) (λ t. IfOk result (λ text. string_bytes text
        ≡ rows.row_text (naming_at here.now) here.now.table.now t (row_at here.now.table.now way.now))) }
{
    let conditions = way_text(here, way.answers())?;
    let verdict = verdict_text(here, target, region, levels)?;
    joined(here.alloc, conditions.as_str(), verdict.as_str())
}

/// Adds the line of the leaf at the end of a way, with its region and what is live on the way.
pub(crate) fn push_row(
    here: &TableScene,
    text: &mut String,
    target: u32,
    way: &Way,
    region: &Region,
    levels: &Levels,
) -> Result<(), AllocError>
    requires target { target < length here.now.table.now.targets }
    requires dims { region.now.dims ≡ dims_of here.now.table.now.terms }
    requires narrowings { region.now.narrowings
        ≡ (led_to here.now.table.now.atoms (everything here.now.table.now.terms) way.now).narrowings }
    requires some { IsInhabited region.now }
    requires live { IfSome (slice_get here.now.table.now.targets target)
        (λ t. AreLiveTo here.now.table.now.atoms t region.now levels.now) }
    ensures { IfSome (slice_get here.now.table.now.targets target) (λ t. OnOk result (string_bytes text.new
        ≡ string_bytes text.old ++ ended (rows.row_text (naming_at here.now) here.now.table.now t
        (row_at here.now.table.now way.now)))) }
{
    let line = row_text(here, target, way, region, levels)?;
    push_line(text, line.as_str())
}
