// Lines of instructions.
ghost use Rattle.std.specs.Prelude.{◌≡◌, [], ◌∷◌, ◌++◌, OnOk, string_bytes};
ghost use Rattle.cat_listing.specs.InstructionLines as words;

use cat_code::Instr;
use std::alloc::AllocError;
use std::fmt::Write;

/// Writes a name alone.
fn push_alone(text: &mut String, name: &str) -> Result<(), AllocError>
    ensures { OnOk result (string_bytes text.new ≡ string_bytes text.old ++ words.words name.now []) }
{
    write!(text, "{name}\n")
}

/// Writes a name with a number.
fn push_one(text: &mut String, name: &str, a: u32) -> Result<(), AllocError>
    ensures { OnOk result (string_bytes text.new ≡ string_bytes text.old ++ words.words name.now (a ∷ [])) }
{
    write!(text, "{name} {a}\n")
}

/// Writes a name with two numbers.
fn push_two(text: &mut String, name: &str, a: u32, b: u32) -> Result<(), AllocError>
    ensures { OnOk result (string_bytes text.new ≡ string_bytes text.old ++ words.words name.now (a ∷ b ∷ [])) }
{
    write!(text, "{name} {a} {b}\n")
}

/// Writes a name with three numbers.
fn push_three(text: &mut String, name: &str, a: u32, b: u32, c: u32) -> Result<(), AllocError>
    ensures { OnOk result (string_bytes text.new ≡ string_bytes text.old ++ words.words name.now (a ∷ b ∷ c ∷ [])) }
{
    write!(text, "{name} {a} {b} {c}\n")
}

/// Writes an instruction.
fn push_instr(text: &mut String, instr: Instr) -> Result<(), AllocError>
    ensures { OnOk result (string_bytes text.new ≡ string_bytes text.old ++ words.instr_text instr) }
{
    match instr {
        Instr::Const(a) => push_one(text, "const", a),
        Instr::Slot(a) => push_one(text, "slot", a),
        Instr::Local(a) => push_one(text, "local", a),
        Instr::Store(a) => push_one(text, "store", a),
        Instr::Bind => push_alone(text, "bind"),
        Instr::Drop(a) => push_one(text, "drop", a),
        Instr::Given(a, b) => push_two(text, "given", a, b),
        Instr::Jump(a) => push_one(text, "jump", a),
        Instr::JumpFalse(a) => push_one(text, "jumpfalse", a),
        Instr::Op(a, b, c) => push_three(text, "op", a, b, c),
        Instr::Pack(a) => push_one(text, "pack", a),
        Instr::List(a) => push_one(text, "list", a),
        Instr::Field(a) => push_one(text, "field", a),
        Instr::Tag(a) => push_one(text, "tag", a),
        Instr::TagNone(a) => push_one(text, "tagnone", a),
        Instr::IsCase(a) => push_one(text, "iscase", a),
        Instr::Content => push_alone(text, "content"),
        Instr::Length => push_alone(text, "length"),
        Instr::Iter => push_alone(text, "iter"),
        Instr::IterList(a) => push_one(text, "iterlist", a),
        Instr::Next(a) => push_one(text, "next", a),
        Instr::Collect => push_alone(text, "collect"),
        Instr::Leave => push_alone(text, "leave"),
        Instr::Call(a, b) => push_two(text, "call", a, b),
        Instr::Scope(a) => push_one(text, "scope", a),
        Instr::Pass(a) => push_one(text, "pass", a),
        Instr::Enter => push_alone(text, "enter"),
        Instr::Return => push_alone(text, "return"),
        Instr::Begin(a) => push_one(text, "begin", a),
        Instr::Hold(a) => push_one(text, "hold", a),
        Instr::Merge => push_alone(text, "merge"),
        Instr::Check(a) => push_one(text, "check", a),
        Instr::Held(a) => push_one(text, "held", a),
        Instr::Take(a) => push_one(text, "take", a),
        Instr::NoValue(a) => push_one(text, "novalue", a),
        Instr::Assert(a) => push_one(text, "assert", a),
    }
}

/// Writes an instruction behind its own number.
#[tactic(auto, unfolding(crate::specs::InstructionLines::instr_line))]
fn push_numbered(text: &mut String, number: usize, instr: Instr) -> Result<(), AllocError>
    ensures { OnOk result (string_bytes text.new ≡ string_bytes text.old ++ words.instr_line number instr) }
{
    write!(text, "{number} ")?;
    push_instr(text, instr)
}

/// Writes the instructions.
pub fn push_instructions(text: &mut String, instructions: &[Instr]) -> Result<(), AllocError>
    ensures { OnOk result (string_bytes text.new
        ≡ string_bytes text.old ++ words.instructions_lines 0 instructions.now) }
{
    for (number, &instr) in instructions.iter().enumerate() {
        push_numbered(text, number, instr)?;
    }
    Ok(())
}
