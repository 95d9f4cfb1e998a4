//! Reads durations.
ghost use Rattle.std.specs.Prelude.{◌≡◌, IfOk, codes, [], ◌∷◌};
ghost use Rattle.std.specs.Option.{option_map};
ghost use Rattle.serde_json.specs.Find.{as_object};
ghost use Rattle.serde_json.specs.View.{view, members_view};
ghost use Rattle.cat_value.specs.declared.value.Value.TheVariants as variant;
ghost use Rattle.cat_json.specs.Paths.{made_of};
ghost use Rattle.cat_json.specs.Keys.{is_among, unknown_key};
ghost use Rattle.cat_json.specs.Spans.{part_in, days_and_months, span_in};

use crate::known::extra;
use crate::scalar::whole_in;
use crate::{PartRefusal, Reason, Step};
use cat_date::Span;
use cat_num::Whole;
use cat_pos::Text;
use cat_value::Value;
use serde_json::{Map, Value as Json};
use std::alloc::{AllocError, Global};

pub(crate) fn duration_in(
    alloc: Global,
    value: &Json,
) -> Result<Result<Value, PartRefusal>, AllocError>
    ensures { IfOk result (λ read. read ≡ made_of variant.Duration (span_in (view value.now))) }
{
    let Some(members) = value.as_object() else {
        return Ok(Err(PartRefusal::new(alloc, Reason::WrongForm)));
    };
    match days_and_months(alloc, value)? {
        Ok(span) => match other_part(members) {
            Some(key) => Ok(Err(extra(alloc, key)?)),
            None => Ok(Ok(Value::Duration(span))),
        },
        Err(refusal) => Ok(Err(refusal)),
    }
}

fn days_and_months(alloc: Global, value: &Json) -> Result<Result<Span, PartRefusal>, AllocError>
    ensures { IfOk result (λ read. read ≡ days_and_months (part_in (codes "days") (view value.now))
        (part_in (codes "months") (view value.now))) }
{
    let days = match part_in(alloc, value, "days")? {
        Ok(days) => days,
        Err(refusal) => return Ok(Err(refusal)),
    };
    match part_in(alloc, value, "months")? {
        Ok(months) => Ok(Ok(Span::from_parts(months.get(), days.get()))),
        Err(refusal) => Ok(Err(refusal)),
    }
}

fn part_in(
    alloc: Global,
    value: &Json,
    name: &str,
) -> Result<Result<Whole, PartRefusal>, AllocError>
    ensures { IfOk result (λ read. read ≡ part_in name.now (view value.now)) }
{
    let read = match value.get(name) {
        Some(part) => whole_in(part),
        None => Err(Reason::Missing),
    };
    match read {
        Ok(part) => Ok(Ok(part)),
        Err(reason) => {
            let step = Step::Name(Text::from_str(alloc, name)?);
            Ok(Err(PartRefusal::new(alloc, reason).under(step)?))
        }
    }
}

/// The first key, in byte order, that is neither `days` nor `months`.
fn other_part(members: &Map<String, Json>) -> Option<&str>
    ensures { option_map (λ key. key.now) result ≡
        unknown_key (is_among (codes "days" ∷ codes "months" ∷ [])) (members_view members.now.entries) }
{
    for (key, _) in members.iter() {
        if !is_part(key.as_str()) {
            return Some(key.as_str());
        }
    }
    None
}

fn is_part(key: &str) -> bool
    ensures { result ≡ is_among (codes "days" ∷ codes "months" ∷ []) key.now }
{
    key == "days" || key == "months"
}
