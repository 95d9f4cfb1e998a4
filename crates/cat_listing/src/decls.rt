// Lines of declarations.
ghost use Rattle.std.specs.Prelude.{◌≡◌, ◌++◌, IfOk, OnOk, string_bytes};
ghost use Rattle.std.specs.Option.{option_copied};
ghost use Rattle.cat_listing.specs.Texts.{lines_of};
ghost use Rattle.cat_listing.specs.DeclarationLines as words;

use crate::texts::{place_text, type_text};
use cat_value::{Case, Decls, Enumeration, Field, ItemDecl, Kind, Scope, Structure, Ty};
use std::alloc::{AllocError, Global};
use std::fmt::Write;

/// Writes a word with a name.
#[tactic(auto, unfolding(crate::specs::DeclarationLines::named_line))]
fn push_named(text: &mut String, word: &str, name: &str) -> Result<(), AllocError>
    ensures { OnOk result (string_bytes text.new ≡ string_bytes text.old ++ words.named_line word.now name.now) }
{
    write!(text, "{word}{name}\n")
}

/// Writes a field of a structure.
#[tactic(auto, unfolding(crate::specs::DeclarationLines::field_line))]
fn push_field(
    alloc: Global,
    text: &mut String,
    field: &Field,
    decls: &Decls,
) -> Result<(), AllocError>
    ensures { OnOk result (string_bytes text.new ≡ string_bytes text.old ++ words.field_line decls.now field.now) }
{
    let name = field.name.as_str();
    let ty = type_text(alloc, &field.ty, decls)?;
    write!(text, "field {name} {ty}\n")
}

fn push_fields(
    alloc: Global,
    text: &mut String,
    fields: &[Field],
    decls: &Decls,
) -> Result<(), AllocError>
    ensures { OnOk result (string_bytes text.new
        ≡ string_bytes text.old ++ lines_of (words.field_line decls.now) fields.now) }
{
    for field in fields {
        push_field(alloc, text, field, decls)?;
    }
    Ok(())
}

/// Writes a structure with its fields.
#[tactic(auto, unfolding(crate::specs::DeclarationLines::structure_lines))]
fn push_structure(
    alloc: Global,
    text: &mut String,
    structure: &Structure,
    decls: &Decls,
) -> Result<(), AllocError>
    ensures { OnOk result (string_bytes text.new
        ≡ string_bytes text.old ++ words.structure_lines decls.now structure.now) }
{
    push_named(text, "structure ", structure.name.as_str())?;
    push_fields(alloc, text, structure.fields.as_slice(), decls)
}

fn push_structures(
    alloc: Global,
    text: &mut String,
    structures: &[Structure],
    decls: &Decls,
) -> Result<(), AllocError>
    ensures { OnOk result (string_bytes text.new
        ≡ string_bytes text.old ++ lines_of (words.structure_lines decls.now) structures.now) }
{
    for structure in structures {
        push_structure(alloc, text, structure, decls)?;
    }
    Ok(())
}

/// The content of a case, where it has one.
fn content_text(alloc: Global, content: Option<&Ty>, decls: &Decls) -> Result<String, AllocError>
    ensures { IfOk result (λ text. string_bytes text ≡ words.content_text decls.now (option_copied content.entry)) }
{
    match content {
        None => Ok(String::new(alloc)),
        Some(ty) => {
            let ty = type_text(alloc, ty, decls)?;
            format!(in alloc; " {ty}")
        }
    }
}

/// Writes a case of an enumeration.
#[tactic(auto, unfolding(crate::specs::DeclarationLines::case_line))]
fn push_case(alloc: Global, text: &mut String, case: &Case, decls: &Decls) -> Result<(), AllocError>
    ensures { OnOk result (string_bytes text.new ≡ string_bytes text.old ++ words.case_line decls.now case.now) }
{
    let name = case.name.as_str();
    let content = content_text(alloc, case.content.as_ref(), decls)?;
    write!(text, "case {name}{content}\n")
}

fn push_cases(
    alloc: Global,
    text: &mut String,
    cases: &[Case],
    decls: &Decls,
) -> Result<(), AllocError>
    ensures { OnOk result (string_bytes text.new
        ≡ string_bytes text.old ++ lines_of (words.case_line decls.now) cases.now) }
{
    for case in cases {
        push_case(alloc, text, case, decls)?;
    }
    Ok(())
}

/// Writes an enumeration with its cases.
#[tactic(auto, unfolding(crate::specs::DeclarationLines::enumeration_lines))]
fn push_enumeration(
    alloc: Global,
    text: &mut String,
    enumeration: &Enumeration,
    decls: &Decls,
) -> Result<(), AllocError>
    ensures { OnOk result (string_bytes text.new
        ≡ string_bytes text.old ++ words.enumeration_lines decls.now enumeration.now) }
{
    push_named(text, "enumeration ", enumeration.name.as_str())?;
    push_cases(alloc, text, enumeration.cases.as_slice(), decls)
}

fn push_enumerations(
    alloc: Global,
    text: &mut String,
    enumerations: &[Enumeration],
    decls: &Decls,
) -> Result<(), AllocError>
    ensures { OnOk result (string_bytes text.new
        ≡ string_bytes text.old ++ lines_of (words.enumeration_lines decls.now) enumerations.now) }
{
    for enumeration in enumerations {
        push_enumeration(alloc, text, enumeration, decls)?;
    }
    Ok(())
}

/// The name of a kind.
fn kind_text(kind: Kind) -> &'static str
    ensures { result.now ≡ words.kind_text kind }
{
    match kind {
        Kind::Input => "input",
        Kind::Output => "output",
        Kind::Internal => "internal",
        Kind::Context => "context",
        Kind::InputOutput => "inputoutput",
        Kind::ContextOutput => "contextoutput",
        Kind::Called(_) => "called",
    }
}

/// Writes a parameter's type behind another one.
#[tactic(auto, unfolding(crate::specs::DeclarationLines::param_text))]
fn push_param(alloc: Global, text: &mut String, param: &Ty, decls: &Decls) -> Result<(), AllocError>
    ensures { OnOk result (string_bytes text.new ≡ string_bytes text.old ++ words.param_text decls.now param.now) }
{
    let ty = type_text(alloc, param, decls)?;
    write!(text, ", {ty}")
}

/// The types of further parameters.
fn more_params(alloc: Global, params: &[Ty], decls: &Decls) -> Result<String, AllocError>
    ensures { IfOk result (λ text. string_bytes text ≡ lines_of (words.param_text decls.now) params.now) }
{
    let mut text = String::new(alloc);
    for param in params {
        push_param(alloc, &mut text, param, decls)?;
    }
    Ok(text)
}

/// The types of parameters, where there are some.
fn params_text(alloc: Global, params: &[Ty], decls: &Decls) -> Result<String, AllocError>
    ensures { IfOk result (λ text. string_bytes text ≡ words.params_text decls.now params.now) }
{
    match params {
        [] => Ok(String::new(alloc)),
        [first, rest @ ..] => {
            let first = type_text(alloc, first, decls)?;
            let rest = more_params(alloc, rest, decls)?;
            format!(in alloc; " of {first}{rest}")
        }
    }
}

/// What a variable is: a condition, or of a type.
fn variable_text(alloc: Global, item: &ItemDecl, decls: &Decls) -> Result<String, AllocError>
    ensures { IfOk result (λ text. string_bytes text ≡ words.variable_text decls.now item.now) }
{
    if item.condition {
        return String::from_str(alloc, "condition");
    }
    type_text(alloc, &item.ty, decls)
}

/// What an item is that calls no scope.
fn defined_text(alloc: Global, item: &ItemDecl, decls: &Decls) -> Result<String, AllocError>
    ensures { IfOk result (λ text. string_bytes text ≡ words.defined_text decls.now item.now) }
{
    let variable = variable_text(alloc, item, decls)?;
    let params = params_text(alloc, item.params.as_slice(), decls)?;
    format!(in alloc; "{variable}{params}")
}

/// What an item is.
fn what_text(alloc: Global, item: &ItemDecl, decls: &Decls) -> Result<String, AllocError>
    ensures { IfOk result (λ text. string_bytes text ≡ words.what_text decls.now item.now item.now.kind) }
{
    match item.kind {
        Kind::Called(scope) => match decls.scopes.get(scope as usize) {
            Some(scope) => String::from_str(alloc, scope.name.as_str()),
            None => Ok(String::new(alloc)),
        },
        _ => defined_text(alloc, item, decls),
    }
}

/// Writes an item of a scope.
#[tactic(auto, unfolding(crate::specs::DeclarationLines::item_line))]
fn push_item(
    alloc: Global,
    text: &mut String,
    item: &ItemDecl,
    decls: &Decls,
) -> Result<(), AllocError>
    ensures { OnOk result (string_bytes text.new ≡ string_bytes text.old ++ words.item_line decls.now item.now) }
{
    let name = item.name.as_str();
    let kind = kind_text(item.kind);
    let place = place_text(alloc, item.pos)?;
    let what = what_text(alloc, item, decls)?;
    write!(text, "item {name} {kind} {place} {what}\n")
}

fn push_items(
    alloc: Global,
    text: &mut String,
    items: &[ItemDecl],
    decls: &Decls,
) -> Result<(), AllocError>
    ensures { OnOk result (string_bytes text.new
        ≡ string_bytes text.old ++ lines_of (words.item_line decls.now) items.now) }
{
    for item in items {
        push_item(alloc, text, item, decls)?;
    }
    Ok(())
}

/// Writes a scope with its entry and its items.
#[tactic(auto, unfolding(crate::specs::DeclarationLines::scope_lines))]
fn push_scope(
    alloc: Global,
    text: &mut String,
    scope: &Scope,
    entry: u32,
    decls: &Decls,
) -> Result<(), AllocError>
    ensures { OnOk result (string_bytes text.new
        ≡ string_bytes text.old ++ words.scope_lines decls.now scope.now entry) }
{
    let name = scope.name.as_str();
    write!(text, "scope {name} {entry}\n")?;
    push_items(alloc, text, scope.items.as_slice(), decls)
}

fn push_scopes(
    alloc: Global,
    text: &mut String,
    scopes: &[Scope],
    entries: &[u32],
    decls: &Decls,
) -> Result<(), AllocError>
    ensures { OnOk result (string_bytes text.new
        ≡ string_bytes text.old ++ words.scopes_lines decls.now scopes.now entries.now) }
{
    for (number, scope) in scopes.iter().enumerate() {
        let Some(entry) = entries.get(number) else {
            return Ok(());
        };
        push_scope(alloc, text, scope, *entry, decls)?;
    }
    Ok(())
}

/// Writes the declarations, with the entries of scopes.
#[tactic(auto, unfolding(crate::specs::DeclarationLines::declaration_lines))]
pub fn push_decls(
    alloc: Global,
    text: &mut String,
    decls: &Decls,
    entries: &[u32],
) -> Result<(), AllocError>
    ensures { OnOk result (string_bytes text.new
        ≡ string_bytes text.old ++ words.declaration_lines decls.now entries.now) }
{
    push_structures(alloc, text, decls.structures.as_slice(), decls)?;
    push_enumerations(alloc, text, decls.enumerations.as_slice(), decls)?;
    push_scopes(alloc, text, decls.scopes.as_slice(), entries, decls)
}
