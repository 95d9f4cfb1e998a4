// Terms, and what answers to their cuts say.
ghost use Rattle.std.specs.Prelude.{◌≡◌, ◌++◌, codes, IfOk, OnOk, string_bytes};
ghost use Rattle.std.specs.Option.{option_copied};
ghost use Rattle.cat_guard.specs.Tables.{item_name};
ghost use Rattle.cat_table.specs.NamedTypes as words;
ghost use Rattle.cat_table.specs.Conditions as conditions;
ghost use Rattle.cat_table.specs.inside.Here.{naming_at};

use crate::constant::constant_text;
use crate::named_type::{NamedType, case_in, field_in, field_named, item_named};
use crate::scene::TableScene;
use crate::telling::type_told;
use cat_answer::position_text;
use cat_guard::{InputPath, Term};
use cat_region::{Cut, Threshold};
use cat_value::{Case, Field, ItemDecl};
use std::alloc::AllocError;

/// The name of an item, empty where there is none.
fn item_name(item: Option<&ItemDecl>) -> &str
    ensures { result.now ≡ item_name (option_copied item.entry) }
{
    match item {
        Some(item) => item.name.as_str(),
        None => "",
    }
}

/// The name of a field, empty where there is none.
fn field_name(field: Option<&Field>) -> &str
    ensures { result.now ≡ words.field_name (option_copied field.entry) }
{
    match field {
        Some(field) => field.name.as_str(),
        None => "",
    }
}

/// The name of a case, empty where there is none.
fn case_name(case: Option<&Case>) -> &str
    ensures { result.now ≡ words.case_name (option_copied case.entry) }
{
    match case {
        Some(case) => case.name.as_str(),
        None => "",
    }
}

/// Adds fields that lead on from a value of that type, each behind a dot.
fn push_fields(
    here: &TableScene,
    text: &mut String,
    of: Option<NamedType>,
    fields: &[u32],
) -> Result<(), AllocError>
    ensures { OnOk result (string_bytes text.new
        ≡ string_bytes text.old ++ conditions.fields_text here.now.decls.now of fields.now) }
{
    let mut of = of;
    for &number in fields {
        let field = field_in(here.decls, number, of);
        text.push_str(".")?;
        text.push_str(field_name(field))?;
        of = field_named(field);
    }
    Ok(())
}

/// A path.
fn path_text(here: &TableScene, path: &InputPath) -> Result<String, AllocError>
    ensures { IfOk result (λ text. string_bytes text
        ≡ conditions.path_text here.now.decls.now here.now.items.now path.now) }
{
    let item = here.items.get(path.item as usize);
    let mut text = String::from_str(here.alloc, item_name(item))?;
    push_fields(here, &mut text, item_named(item), path.fields.as_slice())?;
    Ok(text)
}

/// A term: its path, where it is free, and else where it first stands.
fn term_text(here: &TableScene, term: &Term) -> Result<String, AllocError>
    ensures { IfOk result (λ text. string_bytes text ≡ conditions.term_text (naming_at here.now) term.now) }
{
    match &term.path {
        Some(path) => path_text(here, path),
        None => {
            let place = position_text(here.alloc, here.files, term.pos)?;
            format!(in here.alloc; "term at {place}")
        }
    }
}

/// What an answer says of a term that is compared with a constant, by the words for it.
fn compared(
    here: &TableScene,
    term: &Term,
    sign: &str,
    constant: Threshold,
) -> Result<String, AllocError>
    ensures { IfOk result (λ text. string_bytes text ≡ conditions.term_text (naming_at here.now) term.now
        ++ (sign.now ++ conditions.constant_text constant)) }
{
    let constant = constant_text(here.alloc, constant)?;
    let mut text = term_text(here, term)?;
    text.push_str(sign)?;
    text.push_str(constant.as_str())?;
    Ok(text)
}

/// What an answer says of whether a term is a case, by the words for it.
fn of_case(here: &TableScene, term: &Term, sign: &str, case: u32) -> Result<String, AllocError>
    ensures { IfOk result (λ text. string_bytes text ≡ conditions.term_text (naming_at here.now) term.now
        ++ (sign.now ++ conditions.case_text (naming_at here.now) term.now case)) }
{
    let of = type_told(here, term.function, &term.expr)?;
    let case = case_name(case_in(here.decls, case, of));
    let mut text = term_text(here, term)?;
    text.push_str(sign)?;
    text.push_str(case)?;
    Ok(text)
}

/// A term that is not.
fn negated(here: &TableScene, term: &Term) -> Result<String, AllocError>
    ensures { IfOk result (λ text. string_bytes text
        ≡ codes "not " ++ conditions.term_text (naming_at here.now) term.now) }
{
    let term = term_text(here, term)?;
    format!(in here.alloc; "not {term}")
}

/// What an answer to a cut says of a term.
pub(crate) fn cut_text(
    here: &TableScene,
    term: &Term,
    cut: Cut,
    yes: bool,
) -> Result<String, AllocError>
    ensures { IfOk result (λ text. string_bytes text ≡ conditions.cut_text (naming_at here.now) term.now cut yes) }
{
    match (cut, yes) {
        (Cut::Below(constant), true) => compared(here, term, " < ", constant),
        (Cut::Below(constant), false) => compared(here, term, " >= ", constant),
        (Cut::AtMost(constant), true) => compared(here, term, " <= ", constant),
        (Cut::AtMost(constant), false) => compared(here, term, " > ", constant),
        (Cut::IsTrue, true) => term_text(here, term),
        (Cut::IsTrue, false) => negated(here, term),
        (Cut::IsCase(case), true) => of_case(here, term, " is ", case),
        (Cut::IsCase(case), false) => of_case(here, term, " is not ", case),
    }
}
