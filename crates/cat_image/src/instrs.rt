// Lines of instructions.
ghost use Rattle.std.specs.Prelude.{◌≡◌};
ghost use Rattle.cat_image.specs.inside.Instructions as words;

use crate::names::{OneNumber, TwoNumbers, alone, with_one, with_two};
use crate::words::{at_blank, is, number};
use cat_code::Instr;

/// The numbers of an instruction.
#[derive(Clone, Copy)]
pub(crate) enum Arguments {
    One(u32),
    Two(u32, u32),
    Three(u32, u32, u32),
}

/// Numbers that are parted by blanks.
#[tactic(auto, unfolding(crate::specs::inside::Instructions::arguments_of))]
fn numbers(text: &str) -> Option<Arguments>
    ensures { result ≡ words.arguments_of text.now }
{
    let Some((first, rest)) = at_blank(text) else {
        return Some(Arguments::One(number(text)?));
    };
    let a = number(first)?;
    let Some((second, third)) = at_blank(rest) else {
        return Some(Arguments::Two(a, number(rest)?));
    };
    let b = number(second)?;
    let c = number(third)?;
    Some(Arguments::Three(a, b, c))
}

fn of_one(name: OneNumber, a: u32) -> Instr
    ensures { result ≡ words.of_one name a }
{
    match name {
        OneNumber::Const => Instr::Const(a),
        OneNumber::Slot => Instr::Slot(a),
        OneNumber::Local => Instr::Local(a),
        OneNumber::Store => Instr::Store(a),
        OneNumber::Drop => Instr::Drop(a),
        OneNumber::Jump => Instr::Jump(a),
        OneNumber::JumpFalse => Instr::JumpFalse(a),
        OneNumber::Pack => Instr::Pack(a),
        OneNumber::List => Instr::List(a),
        OneNumber::Field => Instr::Field(a),
        OneNumber::Tag => Instr::Tag(a),
        OneNumber::TagNone => Instr::TagNone(a),
        OneNumber::IsCase => Instr::IsCase(a),
        OneNumber::IterList => Instr::IterList(a),
        OneNumber::Next => Instr::Next(a),
        OneNumber::Scope => Instr::Scope(a),
        OneNumber::Pass => Instr::Pass(a),
        OneNumber::Begin => Instr::Begin(a),
        OneNumber::Hold => Instr::Hold(a),
        OneNumber::Check => Instr::Check(a),
        OneNumber::Held => Instr::Held(a),
        OneNumber::Take => Instr::Take(a),
        OneNumber::NoValue => Instr::NoValue(a),
        OneNumber::Assert => Instr::Assert(a),
    }
}

fn of_two(name: TwoNumbers, a: u32, b: u32) -> Instr
    ensures { result ≡ words.of_two name a b }
{
    match name {
        TwoNumbers::Given => Instr::Given(a, b),
        TwoNumbers::Call => Instr::Call(a, b),
    }
}

/// An instruction by its name and its numbers.
fn with_numbers(name: &str, arguments: Arguments) -> Option<Instr>
    ensures { result ≡ words.with_numbers name.now arguments }
{
    match arguments {
        Arguments::One(a) => Some(of_one(with_one(name)?, a)),
        Arguments::Two(a, b) => Some(of_two(with_two(name)?, a, b)),
        Arguments::Three(a, b, c) => {
            if is(name, "op") {
                Some(Instr::Op(a, b, c))
            } else {
                None
            }
        }
    }
}

/// The instruction that a text spells.
#[tactic(auto, unfolding(crate::specs::inside::Instructions::instr_of))]
pub(crate) fn instr(text: &str) -> Option<Instr>
    ensures { result ≡ words.instr_of text.now }
{
    match at_blank(text) {
        Some((name, rest)) => with_numbers(name, numbers(rest)?),
        None => alone(text),
    }
}
