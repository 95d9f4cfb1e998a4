// What variables hold.
ghost use Rattle.std.specs.Prelude.{◌≡◌, ◌++◌, ℕ, List, codes, MatchOption, IfOk, IfErr};
ghost use Rattle.std.specs.Option.{option_map};
ghost use Rattle.cat_image.specs.inside.Reads.{cut};
ghost use Rattle.cat_verify_tables.specs.inside.Causes.{AtLine};
ghost use Rattle.cat_verify_tables.specs.inside.ItemWords.{IsHeldOf, HoldsNothing};
ghost use Rattle.cat_verify_tables.specs.inside.HeldWords.{ArePlain, IsHeldBase, HoldsNoBase};
ghost use Rattle.cat_verify_tables.specs.inside.HeldWords.{behind_blank, AreParamsIn, HasNoParams};
ghost use Rattle.cat_verify_tables.specs.inside.HeldWords.{IsHeldBare, IsHeldWith, HoldsNoneWith};

use crate::TableRefusal;
use crate::lines::needed;
use crate::types::{TypeNames, behind_lists};
use cat_names::MOST_PARAMETERS;
use cat_value::{Ty, Tys};
use std::alloc::Global;

/// A type with those of parameters, or a condition.
#[derive(Drop)]
pub(crate) struct Held {
    pub ty: Ty,
    pub condition: bool,
    pub params: Tys,
}

/// What stands in front of the first blank, and behind it.
fn at_blank(text: &str) -> Option<(&str, &str)>
    ensures { option_map (λ parts. (parts.0.now, parts.1.now)) result ≡ cut 32 text.now }
{
    text.split_once(' ')
}

/// What stands in front of the first comma, and behind it.
fn at_comma(text: &str) -> Option<(&str, &str)>
    ensures { option_map (λ parts. (parts.0.now, parts.1.now)) result ≡ cut 44 text.now }
{
    text.split_once(',')
}

/// What stands behind the blank that follows a comma.
fn behind_blank(text: &str) -> Option<&str>
    ensures { option_map (λ rest. rest.now) result ≡ behind_blank text.now }
{
    text.strip_prefix(" ")
}

/// What stands behind the word in front of parameters.
fn behind_of(text: &str) -> Option<&str>
    ensures { MatchOption result ((rest : List ℕ) → text.now ≡ codes "of " ++ rest → ⊥)
        (λ rest. text.now ≡ codes "of " ++ rest.now) }
{
    text.strip_prefix("of ")
}

/// The types of parameters, parted by commas.
fn params(alloc: Global, types: &TypeNames, text: &str, line: usize) -> Result<Tys, TableRefusal>
    ensures told { IfOk result (AreParamsIn types.now text.now) }
    ensures cause { IfErr result (AtLine line (HasNoParams types.now text.now)) }
{
    let mut params = Tys::new(alloc);
    let mut rest = text;
    while let Some((ty, more)) = at_comma(rest) {
        needed(params.len() + 1 < MOST_PARAMETERS, line)?;
        let param = types.needed_ty(alloc, ty, line)?;
        let Some(next) = behind_blank(more) else {
            return Err(TableRefusal::BadTable(line));
        };
        params.push(param)?;
        rest = next;
    }
    let last = types.needed_ty(alloc, rest, line)?;
    params.push(last)?;
    Ok(params)
}

/// A type, or that of conditions; and whether it is one.
fn held_type(
    alloc: Global,
    types: &TypeNames,
    lists: u32,
    base: &str,
    line: usize,
) -> Result<(Ty, bool), TableRefusal>
    ensures told { IfOk result (λ r. IsHeldBase types.now lists base.now r.1 r.0) }
    ensures cause { IfErr result (AtLine line (HoldsNoBase types.now lists base.now)) }
{
    if lists == 0 && base == "condition" {
        return Ok((Ty::Boolean, true));
    }
    let Some(ty) = types.in_lists(alloc, lists, base)? else {
        return Err(TableRefusal::BadTable(line));
    };
    Ok((ty, false))
}

/// What a variable without parameters holds.
fn bare(
    alloc: Global,
    types: &TypeNames,
    lists: u32,
    base: &str,
    line: usize,
) -> Result<Held, TableRefusal>
    ensures told { IfOk result (IsHeldBare types.now lists base.now) }
    ensures cause { IfErr result (AtLine line (HoldsNoBase types.now lists base.now)) }
{
    let (ty, condition) = held_type(alloc, types, lists, base, line)?;
    let params = Tys::new(alloc);
    Ok(Held {
        ty,
        condition,
        params,
    })
}

/// What a variable holds whose parameters are told behind a blank.
fn with_params(
    alloc: Global,
    types: &TypeNames,
    lists: u32,
    base: &str,
    more: &str,
    line: usize,
) -> Result<Held, TableRefusal>
    ensures told { IfOk result (IsHeldWith types.now lists base.now more.now) }
    ensures cause { IfErr result (AtLine line (HoldsNoneWith types.now lists base.now more.now)) }
{
    let (ty, condition) = held_type(alloc, types, lists, base, line)?;
    let Some(text) = behind_of(more) else {
        return Err(TableRefusal::BadTable(line));
    };
    let params = params(alloc, types, text, line)?;
    Ok(Held {
        ty,
        condition,
        params,
    })
}

/// What a variable holds by its words: a type, and behind ` of ` those of parameters, where there are some.
pub(crate) fn what_is_held(
    alloc: Global,
    types: &TypeNames,
    what: &str,
    line: usize,
) -> Result<Held, TableRefusal>
    requires { ArePlain types.now }
    ensures told { IfOk result (IsHeldOf types.now what.now) }
    ensures cause { IfErr result (AtLine line (HoldsNothing types.now what.now)) }
{
    let (lists, rest) = behind_lists(what);
    match at_blank(rest) {
        Some((base, more)) => with_params(alloc, types, lists, base, more, line),
        None => bare(alloc, types, lists, rest, line),
    }
}
