// How many parts an input has.
ghost use Rattle.std.specs.Prelude.{◌≡◌, ◌-◌, nat_le, slice_get};
ghost use Rattle.cat_audit_sound.specs.Parts.{parts_to, parts_of_structure, parts_of_enumeration, parts_of_fields};
ghost use Rattle.cat_audit_sound.specs.Parts.{parts_of_cases, parts_of_content, parts_for, parts_given};

use cat_value::{Cases, Decls, Fields, HIGHEST, ItemDecl, Kind, Ty};

/// The most parts of an input that is made.
pub const MOST_PARTS: u32 = 16_777_216;

/// What is left of a number behind the parts of the first `depth` levels of a type; nothing where there are more.
#[cycle(counting)]
#[tactic(auto, using(crate::proofs::CountedParts::levels))]
fn left_by(ty: &Ty, decls: &Decls, depth: u32, left: u32) -> u32
    ensures { result ≡ left - parts_to decls.now depth ty.now }
{
    if depth == 0 {
        return left;
    }
    if left == 0 {
        return 0;
    }
    match ty {
        Ty::Structure(number) => left_by_structure(*number, decls, depth - 1, left - 1),
        Ty::Enumeration(number) => left_by_enumeration(*number, decls, depth - 1, left - 1),
        _ => left - 1,
    }
}

#[cycle(counting)]
fn left_by_structure(number: u32, decls: &Decls, depth: u32, left: u32) -> u32
    ensures { result ≡ left - parts_of_structure (parts_to decls.now depth) (slice_get decls.now.structures number) }
{
    match decls.structures.get(number as usize) {
        Some(structure) => left_by_fields(&structure.fields, decls, depth, left),
        None => left,
    }
}

#[cycle(counting)]
fn left_by_enumeration(number: u32, decls: &Decls, depth: u32, left: u32) -> u32
    ensures { result
        ≡ left - parts_of_enumeration (parts_to decls.now depth) (slice_get decls.now.enumerations number) }
{
    match decls.enumerations.get(number as usize) {
        Some(enumeration) => left_by_cases(&enumeration.cases, decls, depth, left),
        None => left,
    }
}

#[cycle(counting)]
#[tactic(auto, using(crate::proofs::CountedParts::field_by_field))]
fn left_by_fields(fields: &Fields, decls: &Decls, depth: u32, left: u32) -> u32
    ensures { result ≡ left - parts_of_fields (parts_to decls.now depth) fields.now }
{
    let mut left = left;
    for field in fields.as_slice() {
        left = left_by(&field.ty, decls, depth, left);
    }
    left
}

#[cycle(counting)]
#[tactic(auto, using(crate::proofs::CountedParts::case_by_case))]
fn left_by_cases(cases: &Cases, decls: &Decls, depth: u32, left: u32) -> u32
    ensures { result ≡ left - parts_of_cases (parts_to decls.now depth) cases.now }
{
    let mut left = left;
    for case in cases.as_slice() {
        if left == 0 {
            return 0;
        }
        left = left_by_content(&case.content, decls, depth, left - 1);
    }
    left
}

#[cycle(counting)]
fn left_by_content(content: &Option<Ty>, decls: &Decls, depth: u32, left: u32) -> u32
    ensures { result ≡ left - parts_of_content (parts_to decls.now depth) content.now }
{
    match content {
        Some(content) => left_by(content, decls, depth, left),
        None => left,
    }
}

fn left_by_item(item: &ItemDecl, decls: &Decls, left: u32) -> u32
    ensures { result ≡ left - parts_for decls.now item.now }
{
    match item.kind {
        Kind::Input | Kind::InputOutput => left_by(&item.ty, decls, HIGHEST, left),
        _ => left,
    }
}

#[tactic(auto, using(crate::proofs::CountedParts::item_by_item))]
fn left_by_items(items: &[ItemDecl], decls: &Decls, left: u32) -> u32
    ensures { result ≡ left - parts_given decls.now items.now }
{
    let mut left = left;
    for item in items {
        left = left_by_item(item, decls, left);
    }
    left
}

/// Whether what must be given has at most 16,777,216 parts in all, where lists are empty and each case of an
/// enumeration counts. It takes a step a part, and stops where there are more.
#[tactic(auto, using(crate::proofs::CountedParts::bound))]
pub(crate) fn have_few_parts(items: &[ItemDecl], decls: &Decls) -> bool
    ensures { result ≡ nat_le (parts_given decls.now items.now) MOST_PARTS }
{
    left_by_items(items, decls, MOST_PARTS + 1) > 0
}
