// The words that lines and instructions begin with, and their look-up.
ghost use Rattle.std.specs.Prelude.{◌≡◌};
ghost use Rattle.cat_image.specs.inside.Names as names;

use crate::ImageKind;
use cat_code::Instr;

/// A kind of line in front of the instructions.
#[derive(Clone, Copy)]
pub(crate) enum RowKind {
    File,
    Structure,
    Field,
    Enumeration,
    Case,
    Scope,
    Item,
    Target,
    Definition,
    Function,
    Position,
    Constant,
}

/// An instruction that has one number, by its name alone.
#[derive(Clone, Copy)]
pub(crate) enum OneNumber {
    Const,
    Slot,
    Local,
    Store,
    Drop,
    Jump,
    JumpFalse,
    Pack,
    List,
    Field,
    Tag,
    TagNone,
    IsCase,
    IterList,
    Next,
    Scope,
    Pass,
    Begin,
    Hold,
    Check,
    Held,
    Take,
    NoValue,
    Assert,
}

/// An instruction that has two numbers, by its name alone.
#[derive(Clone, Copy)]
pub(crate) enum TwoNumbers {
    Given,
    Call,
}

const ROW_KINDS: [(&str, RowKind); 12] = [
    ("file", RowKind::File),
    ("structure", RowKind::Structure),
    ("field", RowKind::Field),
    ("enumeration", RowKind::Enumeration),
    ("case", RowKind::Case),
    ("scope", RowKind::Scope),
    ("item", RowKind::Item),
    ("target", RowKind::Target),
    ("definition", RowKind::Definition),
    ("function", RowKind::Function),
    ("position", RowKind::Position),
    ("const", RowKind::Constant),
];

const ITEM_KINDS: [(&str, ImageKind); 7] = [
    ("input", ImageKind::Input),
    ("output", ImageKind::Output),
    ("internal", ImageKind::Internal),
    ("context", ImageKind::Context),
    ("inputoutput", ImageKind::InputOutput),
    ("contextoutput", ImageKind::ContextOutput),
    ("called", ImageKind::Called),
];

const NAMES_ALONE: [(&str, Instr); 9] = [
    ("bind", Instr::Bind),
    ("content", Instr::Content),
    ("length", Instr::Length),
    ("iter", Instr::Iter),
    ("collect", Instr::Collect),
    ("leave", Instr::Leave),
    ("enter", Instr::Enter),
    ("return", Instr::Return),
    ("merge", Instr::Merge),
];

const NAMES_WITH_ONE: [(&str, OneNumber); 24] = [
    ("const", OneNumber::Const),
    ("slot", OneNumber::Slot),
    ("local", OneNumber::Local),
    ("store", OneNumber::Store),
    ("drop", OneNumber::Drop),
    ("jump", OneNumber::Jump),
    ("jumpfalse", OneNumber::JumpFalse),
    ("pack", OneNumber::Pack),
    ("list", OneNumber::List),
    ("field", OneNumber::Field),
    ("tag", OneNumber::Tag),
    ("tagnone", OneNumber::TagNone),
    ("iscase", OneNumber::IsCase),
    ("iterlist", OneNumber::IterList),
    ("next", OneNumber::Next),
    ("scope", OneNumber::Scope),
    ("pass", OneNumber::Pass),
    ("begin", OneNumber::Begin),
    ("hold", OneNumber::Hold),
    ("check", OneNumber::Check),
    ("held", OneNumber::Held),
    ("take", OneNumber::Take),
    ("novalue", OneNumber::NoValue),
    ("assert", OneNumber::Assert),
];

const NAMES_WITH_TWO: [(&str, TwoNumbers); 2] = [
    ("given", TwoNumbers::Given),
    ("call", TwoNumbers::Call),
];

/// What the table has for the spelling.
fn look_up<K: Copy>(table: &[(&str, K)], spelling: &[u8]) -> Option<K>
    ensures { result ≡ names.look_up (names.spelled table.now) spelling.now }
{
    for &(text, value) in table {
        if spelling == text.as_bytes() {
            return Some(value);
        }
    }
    None
}

fn begins_with_digit(word: &[u8]) -> bool
    ensures { result ≡ names.begins_with_digit word.now }
{
    match word {
        [] => false,
        [first, ..] => first.is_ascii_digit(),
    }
}

/// Most lines are those of instructions, whose first word is a number and no kind.
pub(crate) fn row_kind(word: &str) -> Option<RowKind>
    ensures { result ≡ names.look_up names.row_kinds word.now }
{
    let bytes = word.as_bytes();
    if begins_with_digit(bytes) {
        return None;
    }
    look_up(&ROW_KINDS, bytes)
}

pub(crate) fn item_kind(word: &str) -> Option<ImageKind>
    ensures { result ≡ names.look_up names.item_kinds word.now }
{
    look_up(&ITEM_KINDS, word.as_bytes())
}

/// An instruction that has no number.
pub(crate) fn alone(name: &str) -> Option<Instr>
    ensures { result ≡ names.look_up names.alone name.now }
{
    look_up(&NAMES_ALONE, name.as_bytes())
}

pub(crate) fn with_one(name: &str) -> Option<OneNumber>
    ensures { result ≡ names.look_up names.with_one name.now }
{
    look_up(&NAMES_WITH_ONE, name.as_bytes())
}

pub(crate) fn with_two(name: &str) -> Option<TwoNumbers>
    ensures { result ≡ names.look_up names.with_two name.now }
{
    look_up(&NAMES_WITH_TWO, name.as_bytes())
}
