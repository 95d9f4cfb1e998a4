// What decides a target in a region.
ghost use Rattle.std.specs.Prelude.{◌≡◌, ◌<◌, IfOk, IfSome, length, slice_get, string_bytes};
ghost use Rattle.std.specs.Option.{option_copied};
ghost use Rattle.cat_region.specs.Regions.{IsInhabited};
ghost use Rattle.cat_guard.specs.Judged.{judged_in};
ghost use Rattle.cat_guard.specs.Levels.{AreLiveTo};
ghost use Rattle.cat_guard.specs.Tables as tables;
ghost use Rattle.cat_guard.specs.Valuations.{dims_of};
ghost use Rattle.cat_table.specs.Results as results;
ghost use Rattle.cat_table.specs.inside.Here.{naming_at};

use crate::scene::TableScene;
use cat_answer::position_text;
use cat_guard::{GuardDef, Judgement, Levels, TableTarget, judge_live, live_winner};
use cat_region::Region;
use cat_value::{Decls, ItemDecl, Kind};
use std::alloc::AllocError;

/// The item of that number of the scope that an item calls.
fn inner_item<'a>(decls: &'a Decls, item: Option<&ItemDecl>, inner: u32) -> Option<&'a ItemDecl>
    ensures { option_copied result ≡ tables.inner_item decls.now (option_copied item.entry) inner }
{
    match item?.kind {
        Kind::Called(scope) => decls.scopes.get(scope as usize)?.items.get(inner as usize),
        _ => None,
    }
}

/// Whether an item may be given and need not.
fn is_context(item: Option<&ItemDecl>) -> bool
    ensures { result ≡ results.is_context (option_copied item.entry) }
{
    match item {
        Some(item) => !item.kind.must_be_given(),
        None => false,
    }
}

/// Whether a target is a context of the scope that an item calls.
fn is_called_context(decls: &Decls, item: Option<&ItemDecl>, inner: Option<u32>) -> bool
    ensures { result ≡ results.is_called_context decls.now (option_copied item.entry) inner }
{
    match inner {
        Some(inner) => is_context(inner_item(decls, item, inner)),
        None => false,
    }
}

/// What is said of a target of which no definition holds.
fn absent_text(here: &TableScene, target: &TableTarget) -> &'static str
    ensures { result.now ≡ results.absent_text (naming_at here.now) target.now }
{
    let item = here.items.get(target.target.item as usize);
    if is_called_context(here.decls, item, target.target.inner) {
        return "not given";
    }
    if target.may_be_empty {
        "false"
    } else {
        "no value"
    }
}

/// A definition by its place.
fn definition_text(here: &TableScene, def: Option<&GuardDef>) -> Result<String, AllocError>
    ensures { IfOk result (λ text. string_bytes text
        ≡ results.definition_text (naming_at here.now) (option_copied def.entry)) }
{
    match def {
        Some(def) => {
            let place = position_text(here.alloc, here.files, def.pos)?;
            format!(in here.alloc; "definition at {place}")
        }
        None => Ok(String::new(here.alloc)),
    }
}

/// What decides the target of that number in a region that admits something, by what is live on the way to it.
pub(crate) fn verdict_text(
    here: &TableScene,
    target: u32,
    region: &Region,
    levels: &Levels,
) -> Result<String, AllocError>
    requires target { target < length here.now.table.now.targets }
    requires dims { region.now.dims ≡ dims_of here.now.table.now.terms }
    requires some { IsInhabited region.now }
    requires live { IfSome (slice_get here.now.table.now.targets target)
        (λ t. AreLiveTo here.now.table.now.atoms t region.now levels.now) }
    ensures { IfSome (slice_get here.now.table.now.targets target) (λ t. IfOk result (λ text. string_bytes text
        ≡ results.verdict_text (naming_at here.now) t (judged_in here.now.table.now.atoms region.now t))) }
{
    let judged = here.table.targets.at(target as usize);
    let live = levels.live_in(here.alloc, here.table, target, region)?;
    match judge_live(here.table, target, region, &live) {
        Judgement::Holds => {
            let number = live_winner(here.table, target, region, &live);
            definition_text(here, judged.defs.get(number as usize))
        }
        Judgement::Empty => String::from_str(here.alloc, absent_text(here, judged)),
        Judgement::Conflict => String::from_str(here.alloc, "conflict"),
        Judgement::Needs(_) => Ok(String::new(here.alloc)),
    }
}
