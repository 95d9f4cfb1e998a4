// Values that texts plainly are, as most constants of listings: whole numbers and truths.
ghost use Rattle.std.specs.Prelude.{◌≡◌, ◌≢◌, IfSome, IfOk, IfErr, IsTrue, Ok, Err};
ghost use Rattle.cat_value.specs.declared.ty.Ty.TheVariants as ty;
ghost use Rattle.cat_value.specs.Typing.{has_type, is_type};
ghost use Rattle.cat_json.specs.declared.refusal.InputRefusal.TheVariants.{Memory};
ghost use Rattle.cat_json.specs.InputsRead.{value_read};
ghost use Rattle.cat_verify_tables.specs.inside.PlainWords.{begins_plainly, IsPlainNumber, truth_text, IsReadAs};

use cat_json::{InputRefusal, read_value};
use cat_num::Whole;
use cat_value::{Decls, Ty, Value};
use std::alloc::Global;

/// Whether a digit stands first, which is no zero where more stands behind it.
fn begins_plainly(text: &[u8]) -> bool
    ensures { result ≡ begins_plainly text.now }
{
    match text {
        [] => false,
        [digit] => digit.is_ascii_digit(),
        [first, ..] => b'1' <= *first && *first <= b'9',
    }
}

/// The number whose plain decimals a text is.
fn plain_number(text: &str) -> Option<u32>
    ensures { IfSome result (IsPlainNumber text.now) }
{
    if !begins_plainly(text.as_bytes()) {
        return None;
    }
    match text.parse::<u32>() {
        Ok(number) => Some(number),
        Err(_) => None,
    }
}

fn plain_integer(text: &str) -> Option<Value>
    ensures { IfSome result (IsReadAs text.now ty.Integer) }
{
    let number = plain_number(text)?;
    let whole = Whole::new(number as i64)?;
    Some(Value::Integer(whole))
}

/// A truth by its word.
fn plain_truth(text: &str) -> Option<bool>
    ensures { IfSome result (λ truth. text.now ≡ truth_text truth) }
{
    match text {
        "true" => Some(true),
        "false" => Some(false),
        _ => None,
    }
}

fn plain_boolean(text: &str) -> Option<Value>
    ensures { IfSome result (IsReadAs text.now ty.Boolean) }
{
    let truth = plain_truth(text)?;
    Some(Value::Boolean(truth))
}

fn plain_value(text: &str, ty: &Ty) -> Option<Value>
    ensures { IfSome result (IsReadAs text.now ty.now) }
{
    match ty {
        Ty::Boolean => plain_boolean(text),
        Ty::Integer => plain_integer(text),
        _ => None,
    }
}

/// The value of a type that a text is. No reader of JSON is made where the text is one plainly.
pub(crate) fn value_of(
    alloc: Global,
    text: &str,
    ty: &Ty,
    decls: &Decls,
) -> Result<Value, InputRefusal>
    ensures read { IfOk result (λ value. value_read decls.now ty.now text.now ≡ Ok value) }
    ensures refused { IfErr result (λ refusal. refusal ≢ Memory → value_read decls.now ty.now text.now ≡ Err refusal) }
    ensures typed { IfOk result (λ value. IsTrue (is_type decls.now ty.now) →
        IsTrue (has_type decls.now value ty.now)) }
{
    if let Some(value) = plain_value(text, ty) {
        return Ok(value);
    }
    read_value(alloc, text.as_bytes(), ty, decls)
}
