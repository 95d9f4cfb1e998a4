//! The keys that an object may have.
ghost use Rattle.std.specs.Prelude.{◌≡◌, ℕ, List, IfOk, is_some, [], ◌∷◌};
ghost use Rattle.std.specs.Option.{option_map};
ghost use Rattle.std.specs.Ordering.{nat_cmp};
ghost use Rattle.std.specs.Cmp.Lexicographic.{slice_cmp};
ghost use Rattle.std.specs.BTreeMap.{get_by};
ghost use Rattle.serde_json.specs.View.{members_view};
ghost use Rattle.cat_json.specs.declared.refusal.Reason.TheVariants.{Extra};
ghost use Rattle.cat_json.specs.declared.step.Step.TheVariants.{Name};
ghost use Rattle.cat_json.specs.InputsRead.{given_names};
ghost use Rattle.cat_json.specs.Keys.{is_among, unknown_key, field_names};

use crate::{PartRefusal, Reason, Step};
use cat_pos::Text;
use cat_value::{Fields, ItemDecls};
use serde_json::{Map, Value as Json};
use std::alloc::{AllocError, Global};
use std::collections::BTreeMap;

/// Names of which each is looked up in a few steps.
type Known<'a> = BTreeMap<&'a str, ()>;

/// The first key of an object, in byte order, that is no field's name.
pub(crate) fn unknown_field<'a>(
    alloc: Global,
    members: &'a Map<String, Json>,
    fields: &Fields,
) -> Result<Option<&'a str>, AllocError>
    ensures { IfOk result (λ key. option_map (λ k. k.now) key ≡
        unknown_key (is_among (field_names fields.now)) (members_view members.now.entries)) }
{
    let known = field_names(alloc, fields)?;
    Ok(unknown_key(members, &known))
}

fn field_names<'a>(alloc: Global, fields: &'a Fields) -> Result<Known<'a>, AllocError>
    ensures { IfOk result (λ known. (name : List ℕ) → is_some (get_by (λ k. slice_cmp nat_cmp name k.now) known) ≡
        is_among (field_names fields.now) name) }
{
    let mut known = BTreeMap::new(alloc);
    for field in fields.as_slice() {
        known.insert(field.name.as_str(), ())?;
    }
    Ok(known)
}

/// The first key of an object, in byte order, that is the name of no variable that may be given.
pub(crate) fn unknown_variable<'a>(
    alloc: Global,
    members: &'a Map<String, Json>,
    items: &ItemDecls,
) -> Result<Option<&'a str>, AllocError>
    ensures { IfOk result (λ key. option_map (λ k. k.now) key ≡
        unknown_key (is_among (given_names items.now)) (members_view members.now.entries)) }
{
    let known = given_names(alloc, items)?;
    Ok(unknown_key(members, &known))
}

fn given_names<'a>(alloc: Global, items: &'a ItemDecls) -> Result<Known<'a>, AllocError>
    ensures { IfOk result (λ known. (name : List ℕ) → is_some (get_by (λ k. slice_cmp nat_cmp name k.now) known) ≡
        is_among (given_names items.now) name) }
{
    let mut known = BTreeMap::new(alloc);
    for item in items.as_slice() {
        if !item.kind.may_be_given() {
            continue;
        }
        known.insert(item.name.as_str(), ())?;
    }
    Ok(known)
}

/// The first key, in byte order, that is not known.
fn unknown_key<'a>(members: &'a Map<String, Json>, known: &Known<'_>) -> Option<&'a str>
    ensures { option_map (λ key. key.now) result ≡
        unknown_key (λ name. is_some (get_by (λ k. slice_cmp nat_cmp name k.now) known.now))
        (members_view members.now.entries) }
{
    for (key, _) in members.iter() {
        if !known.contains_key(key.as_str()) {
            return Some(key.as_str());
        }
    }
    None
}

/// The refusal of a key that is not known.
pub(crate) fn extra(alloc: Global, key: &str) -> Result<PartRefusal, AllocError>
    ensures { IfOk result (λ refusal. refusal ≡ record { reason = Extra; path = Name key.now ∷ [] }) }
{
    PartRefusal::new(alloc, Reason::Extra).under(Step::Name(Text::from_str(alloc, key)?))
}
