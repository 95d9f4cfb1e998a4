//! Writes values, inputs and outcomes.
ghost use Rattle.std.specs.Prelude.{◌≡◌, ◌<◌, IfOk, length, slice_get, string_bytes};
ghost use Rattle.std.specs.Option.{option_copied};
ghost use Rattle.serde_json.specs.Data.{no_members};
ghost use Rattle.serde_json.specs.View.{view};
ghost use Rattle.serde_json.specs.Written.{compact_text};
ghost use Rattle.cat_json.specs.InputsRead.{items_of};
ghost use Rattle.cat_answer.specs.Writes.{value_bytes, input_bytes};
ghost use Rattle.cat_answer.specs.ReadBack.{IsValueText, IsInputText};
ghost use Rattle.cat_answer.specs.Answer as answers;
ghost use Rattle.cat_answer.specs.Answer.{answer_of, outputs_object, fault_text, text_or_nothing};

use crate::members::{input_json, outputs_json};
use crate::writing::value_json;
use cat_date::shown_days_are_read;
use cat_pos::{Files, Pos};
use cat_value::{
    Decls, FaultKind, Input, ItemDecl, ItemDecls, Kind, Outcome, Scope, Target, Ty, Value, Values,
};
use std::alloc::{AllocError, Global};

/// The compact text of a value of the type. It is read as that value where no two fields, cases or inputs of one
/// declaration have one name.
#[tactic(auto, using(crate::proofs::WriteShape::shape, crate::proofs::TextsBack::back))]
pub fn value_text(
    alloc: Global,
    value: &Value,
    ty: &Ty,
    decls: &Decls,
) -> Result<String, AllocError>
    ensures written { IfOk result (λ text. string_bytes text ≡ value_bytes decls.now ty.now value.now) }
    ensures read_back { IfOk result (λ text. IsValueText decls.now ty.now value.now (string_bytes text)) }
{
    shown_days_are_read();
    value_json(alloc, value, ty, decls)?.to_string(alloc)
}

/// The compact text of an input of the scope. It is read as that input where no two fields, cases or inputs of one
/// declaration have one name.
#[tactic(auto, using(crate::proofs::WriteShape::shape, crate::proofs::TextsBack::back))]
pub fn input_text(
    alloc: Global,
    input: &Input,
    decls: &Decls,
    scope: u32,
) -> Result<String, AllocError>
    requires { scope < length decls.now.scopes }
    ensures written { IfOk result (λ text. string_bytes text ≡
        input_bytes decls.now (items_of (slice_get decls.now.scopes scope)) input.now) }
    ensures read_back { IfOk result (λ text. IsInputText decls.now scope input.now (string_bytes text)) }
{
    shown_days_are_read();
    let items = &decls.scopes.at(scope as usize).items;
    input_json(alloc, input, items, decls)?.to_string(alloc)
}

/// The line that tells an outcome of the scope, without its line feed. Where a number in the outcome names no entry of
/// the declarations or the files, its name is empty.
pub fn answer_text(
    alloc: Global,
    outcome: &Outcome,
    decls: &Decls,
    scope: u32,
    files: &Files,
) -> Result<String, AllocError>
    requires { scope < length decls.now.scopes }
    ensures { IfOk result (λ text. string_bytes text ≡ answer_of decls.now scope files.now outcome.now) }
{
    match outcome {
        Outcome::Value(values) => {
            let items = &decls.scopes.at(scope as usize).items;
            outputs_text(alloc, values, items, decls)
        }
        Outcome::Conflict(target, positions) => {
            let target = target_text(alloc, *target, decls)?;
            let positions = positions_text(alloc, positions.as_slice(), files)?;
            format!(in alloc; "conflict {target} at{positions}")
        }
        Outcome::NoValue(target, pos) => {
            let target = target_text(alloc, *target, decls)?;
            let pos = position_text(alloc, files, *pos)?;
            format!(in alloc; "no value {target} at {pos}")
        }
        Outcome::Fault(kind, pos) => {
            let kind = fault_text(*kind);
            let pos = position_text(alloc, files, *pos)?;
            format!(in alloc; "fault {kind} at {pos}")
        }
    }
}

#[tactic(auto, using(crate::proofs::WriteShape::shape))]
fn outputs_text(
    alloc: Global,
    values: &Values,
    items: &ItemDecls,
    decls: &Decls,
) -> Result<String, AllocError>
    ensures { IfOk result (λ text. string_bytes text ≡ compact_text (outputs_object decls.now items.now values.now)) }
{
    outputs_json(alloc, values, items, decls)?.to_string(alloc)
}

/// `S.x`, or `S.t.x` for an item of a called scope.
pub fn target_text(alloc: Global, target: Target, decls: &Decls) -> Result<String, AllocError>
    ensures { IfOk result (λ text. string_bytes text ≡ answers.target_text decls.now target) }
{
    match decls.scopes.get(target.scope as usize) {
        Some(scope) => scope_text(alloc, scope, target, decls),
        None => Ok(String::new(alloc)),
    }
}

fn scope_text(
    alloc: Global,
    scope: &Scope,
    target: Target,
    decls: &Decls,
) -> Result<String, AllocError>
    ensures { IfOk result (λ text. string_bytes text ≡ answers.scope_text decls.now scope.now target) }
{
    let name = scope.name.as_str();
    match scope.items.get(target.item as usize) {
        Some(item) => {
            let item = item_text(alloc, item, target.inner, decls)?;
            format!(in alloc; "{name}.{item}")
        }
        None => format!(in alloc; "{name}."),
    }
}

fn item_text(
    alloc: Global,
    item: &ItemDecl,
    inner: Option<u32>,
    decls: &Decls,
) -> Result<String, AllocError>
    ensures { IfOk result (λ text. string_bytes text ≡ answers.item_text decls.now item.now inner) }
{
    let name = item.name.as_str();
    let Some(inner) = inner else {
        return String::from_str(alloc, name);
    };
    match called_item(item.kind, inner, decls) {
        Some(inner) => {
            let inner = inner.name.as_str();
            format!(in alloc; "{name}.{inner}")
        }
        None => format!(in alloc; "{name}."),
    }
}

/// The item of that number of the scope that an item calls.
fn called_item(kind: Kind, inner: u32, decls: &Decls) -> Option<&ItemDecl>
    ensures { option_copied result ≡ answers.called_item decls.now kind inner }
{
    match kind {
        Kind::Called(scope) => match decls.scopes.get(scope as usize) {
            Some(scope) => scope.items.get(inner as usize),
            None => None,
        },
        _ => None,
    }
}

/// The name of a file, empty where none has that number.
fn file_name(files: &Files, file: u32) -> &str
    ensures { result.now ≡ text_or_nothing (slice_get files.now file) }
{
    if (file as usize) < files.len() {
        return files.name(file);
    }
    ""
}

/// The text `name:line:column` of a position in a file of that name.
pub fn named_position(alloc: Global, name: &str, pos: Pos) -> Result<String, AllocError>
    ensures { IfOk result (λ text. string_bytes text ≡ answers.named_position name.now pos) }
{
    let line = pos.line;
    let column = pos.column();
    format!(in alloc; "{name}:{line}:{column}")
}

/// The text `name:line:column` of a position. Where no file has its number, the name is empty.
pub fn position_text(alloc: Global, files: &Files, pos: Pos) -> Result<String, AllocError>
    ensures { IfOk result (λ text. string_bytes text ≡ answers.position_text files.now pos) }
{
    named_position(alloc, file_name(files, pos.file()), pos)
}

/// The positions, each after a blank.
fn positions_text(alloc: Global, positions: &[Pos], files: &Files) -> Result<String, AllocError>
    ensures { IfOk result (λ text. string_bytes text ≡ answers.positions_text files.now positions.now) }
{
    let mut text = String::new(alloc);
    for &pos in positions {
        let pos = position_text(alloc, files, pos)?;
        text.push_str(" ")?;
        text.push_str(pos.as_str())?;
    }
    Ok(text)
}

/// The name of what stops a run.
pub fn fault_text(kind: FaultKind) -> &'static str
    ensures { result.now ≡ fault_text kind }
{
    match kind {
        FaultKind::Overflow => "Overflow",
        FaultKind::DivisionByZero => "DivisionByZero",
        FaultKind::AmbiguousDate => "AmbiguousDate",
        FaultKind::Uncomparable => "Uncomparable",
        FaultKind::AssertionFailed => "AssertionFailed",
    }
}
