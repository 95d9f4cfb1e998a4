// Numbers that instructions name, and the rules that listings keep.
ghost use Rattle.std.specs.Prelude.{◌≡◌, ◌<◌, ◌≤◌, ◌&&◌, true, Some, nat_le, nat_lt, length};
ghost use Rattle.std.specs.Prelude.{slice_get, slice_set, IfOk, IfErr};
ghost use Rattle.std.specs.List.{list_all};
ghost use Rattle.cat_code.specs.Operations.{operations, roundings};
ghost use Rattle.cat_code.specs.Jumps.{jumps_in, is_within};
ghost use Rattle.cat_code.specs.Valid.{is_empty_constant, has_content, are_tested, is_loop, keeps_rules};
ghost use Rattle.cat_code.specs.Valid.{places_entered};
ghost use Rattle.cat_code.specs.declared.instr.Instr.TheVariants.{Content};
ghost use Rattle.cat_verify.specs.inside.Marks.{marked, is_led_into, entered_in};
ghost use Rattle.cat_verify.specs.inside.GoodNumbers.{HasGoodNumbers, NumbersCause, EntriesCause};

use crate::VerifyRefusal;
use crate::jumps::jump_of;
use cat_code::{Instr, Tables};
use cat_value::Value;
use std::alloc::{AllocError, Global};

/// How many operators there are.
const OPERATORS: u32 = 45;

const ROUNDINGS: u32 = 3;

fn is_below(number: u32, count: usize) -> bool
    ensures { result ≡ nat_lt number count }
{
    (number as usize) < count
}

fn is_operation(tables: &Tables, operator: u32, rounding: u32, position: u32) -> bool
    ensures { result ≡ (nat_lt 0 operator && nat_le operator (length operations) && nat_lt rounding (length roundings)
        && nat_lt position (length tables.now.positions)) }
{
    if operator == 0 || operator > OPERATORS {
        return false;
    }
    rounding < ROUNDINGS && is_below(position, tables.positions.len())
}

/// Whether each number of an instruction is that of an entry of its table.
fn is_within(tables: &Tables, count: usize, instr: Instr) -> bool
    ensures { result ≡ is_within tables.now count instr }
{
    match instr {
        Instr::Const(constant) | Instr::IterList(constant) => {
            is_below(constant, tables.constants.len())
        }
        Instr::Given(_, place)
        | Instr::Jump(place)
        | Instr::JumpFalse(place)
        | Instr::Next(place)
        | Instr::Held(place)
        | Instr::Take(place) => is_below(place, count),
        Instr::Op(operator, rounding, position) => {
            is_operation(tables, operator, rounding, position)
        }
        Instr::Tag(case) | Instr::TagNone(case) | Instr::IsCase(case) => {
            is_below(case, tables.cases.len())
        }
        Instr::Call(function, _) => is_below(function, tables.functions.len()),
        Instr::Scope(scope) => is_below(scope, tables.scopes.len()),
        Instr::Begin(target) | Instr::Check(target) | Instr::NoValue(target) => {
            is_below(target, tables.targets.len())
        }
        Instr::Hold(definition) => is_below(definition, tables.definitions.len()),
        Instr::Assert(position) => is_below(position, tables.positions.len()),
        _ => true,
    }
}

fn is_empty_list(tables: &Tables, constant: u32) -> bool
    ensures { result ≡ is_empty_constant (slice_get tables.now.constants constant) }
{
    match tables.constants.get(constant as usize) {
        Some(constant) => match &constant.value {
            Value::List(elements) => elements.is_empty(),
            _ => false,
        },
        None => false,
    }
}

fn has_content(tables: &Tables, case: u32) -> bool
    ensures { result ≡ has_content tables.now case }
{
    let Some(place) = tables.cases.get(case as usize) else {
        return false;
    };
    let Some(enumeration) = tables
        .decls
        .get()
        .enumerations
        .get(place.enumeration as usize)
    else {
        return false;
    };
    match enumeration.cases.get(place.case as usize) {
        Some(case) => case.content.is_some(),
        None => false,
    }
}

/// Whether four instructions push a local name that is found to be a case with content.
fn are_tested(tables: &Tables, front: &[Instr]) -> bool
    requires { length front.now ≡ 4 }
    ensures { result ≡ are_tested tables.now (slice_get front.now 0) (slice_get front.now 1) (slice_get front.now 2)
        (slice_get front.now 3) }
{
    match front {
        [
            Instr::Local(asked),
            Instr::IsCase(case),
            Instr::JumpFalse(_),
            Instr::Local(taken),
        ] => asked == taken && has_content(tables, *case),
        _ => false,
    }
}

fn is_loop(instr: Instr) -> bool
    ensures { result ≡ is_loop (Some instr) }
{
    match instr {
        Instr::Iter | Instr::IterList(_) => true,
        _ => false,
    }
}

/// Marks a place, where there is one.
fn mark(marks: &mut [bool], place: u32)
    ensures { marks.new ≡ slice_set marks.old place true }
{
    if (place as usize) < marks.len() {
        marks[place as usize] = true;
    }
}

fn mark_all(marks: &mut [bool], places: &[u32])
    ensures { marks.new ≡ marked marks.old places.now }
{
    for &place in places {
        mark(marks, place);
    }
}

fn mark_jumps(marks: &mut [bool], code: &[Instr])
    ensures { marks.new ≡ marked marks.old (jumps_in code.now) }
{
    for &instr in code {
        let Some(place) = jump_of(instr) else {
            continue;
        };
        mark(marks, place);
    }
}

/// Marks what is jumped to or entered.
fn mark_entered(marks: &mut [bool], tables: &Tables, code: &[Instr])
    ensures { marks.new ≡ marked marks.old (places_entered tables.now code.now) }
{
    mark_jumps(marks, code);
    mark_all(marks, tables.scopes.as_slice());
    mark_all(marks, tables.functions.as_slice());
}

/// For each instruction whether it is jumped to or entered.
fn entered(alloc: Global, tables: &Tables, code: &[Instr]) -> Result<Vec<bool>, AllocError>
    ensures { IfOk result (λ marks. marks.items ≡ entered_in tables.now code.now) }
{
    let mut marks = vec![in alloc; false; code.len()]?;
    mark_entered(&mut marks, tables, code);
    Ok(marks)
}

/// Whether an instruction or one of the three in front of it is marked.
fn is_led_into(marks: &[bool], at: usize) -> bool
    requires far { 4 ≤ at }
    requires within { at < length marks.now }
    ensures { result ≡ is_led_into marks.now at }
{
    marks[at] || marks[at - 1] || marks[at - 2] || marks[at - 3]
}

/// Whether a content stands behind its test, and nothing leads in between.
fn is_content_tested(tables: &Tables, code: &[Instr], marks: &[bool], at: usize) -> bool
    requires marks { marks.now ≡ entered_in tables.now code.now }
    requires within { at < length code.now }
    ensures { result ≡ keeps_rules tables.now code.now (places_entered tables.now code.now) at Content }
{
    if at < 4 {
        return false;
    }
    if is_led_into(marks, at) {
        return false;
    }
    are_tested(tables, &code[at - 4..at])
}

/// Whether an instruction that stands there keeps the rules of listings.
fn keeps_rules(tables: &Tables, code: &[Instr], marks: &[bool], at: usize, instr: Instr) -> bool
    requires marks { marks.now ≡ entered_in tables.now code.now }
    requires within { at < length code.now }
    ensures { result ≡ keeps_rules tables.now code.now (places_entered tables.now code.now) at instr }
{
    match instr {
        Instr::List(count) => count > 0,
        Instr::IterList(constant) => is_empty_list(tables, constant),
        Instr::Next(_) => at > 0 && is_loop(code[at - 1]),
        Instr::Content => is_content_tested(tables, code, marks, at),
        _ => true,
    }
}

/// Refuses an entry that lies behind the last instruction.
fn refuse_entries(entries: &[u32], count: usize) -> Result<(), VerifyRefusal>
    ensures inside { IfOk result (λ _. list_all (λ place. nat_lt place count) entries.now ≡ true) }
    ensures cause { IfErr result (EntriesCause entries.now count) }
{
    for &entry in entries {
        if entry as usize >= count {
            return Err(VerifyRefusal::BadNumber(count));
        }
    }
    Ok(())
}

/// Refuses an instruction or an entry that names a number outside its table, or breaks a rule of listings.
pub(crate) fn refuse_numbers(
    alloc: Global,
    tables: &Tables,
    code: &[Instr],
) -> Result<(), VerifyRefusal>
    ensures good { IfOk result (λ _. HasGoodNumbers tables.now code.now) }
    ensures cause { IfErr result (NumbersCause tables.now code.now) }
{
    let marks = entered(alloc, tables, code)?;
    for (at, &instr) in code.iter().enumerate() {
        if !is_within(tables, code.len(), instr) {
            return Err(VerifyRefusal::BadNumber(at));
        }
        if !keeps_rules(tables, code, &marks, at, instr) {
            return Err(VerifyRefusal::BadNumber(at));
        }
    }
    refuse_entries(tables.scopes.as_slice(), code.len())?;
    refuse_entries(tables.functions.as_slice(), code.len())
}
