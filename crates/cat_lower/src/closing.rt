// The ends of forms whose jumps were laid open.
ghost use Rattle.std.specs.Prelude.{◌<◌, true, false, OnOk, length};
ghost use Rattle.cat_code.specs.declared.instr.Instr.TheVariants as instr;
ghost use Rattle.cat_lower.specs.Grown.{Closes, ClosesSides};
ghost use Rattle.cat_lower.specs.Laying.{loop};
ghost use Rattle.cat_lower.specs.Pieces.{search_for, any_turn, all_turn};

use crate::Growing;
use crate::growing::{behind, fitting, patch, place, put, put_open, put_truth};
use cat_code::Instr;
use std::alloc::AllocError;

/// Behind two sides, each with a jump in front.
pub fn close_sides(growing: &mut Growing, test: usize, first: usize) -> Result<(), AllocError>
    requires test { test < length growing.old.instructions }
    requires first { first < length growing.old.instructions }
    ensures { OnOk result (ClosesSides test first growing.old growing.new) }
{
    let second = behind(first)?;
    let end = place(growing)?;
    patch(growing, first, Instr::Jump(end));
    patch(growing, test, Instr::JumpFalse(second));
    Ok(())
}

/// Behind the body of a loop.
pub fn close_loop(growing: &mut Growing, start: usize) -> Result<(), AllocError>
    requires { start < length growing.old.instructions }
    ensures { OnOk result (Closes start (instr.Next 0) growing.old growing.new loop) }
{
    let back = fitting(start)?;
    put(growing, Instr::Jump(back))?;
    let end = place(growing)?;
    patch(growing, start, Instr::Next(end));
    Ok(())
}

/// Behind the test of a loop that ends where the test is true.
pub fn close_any(growing: &mut Growing, start: usize) -> Result<(), AllocError>
    requires { start < length growing.old.instructions }
    ensures { OnOk result (Closes start (instr.Next 0) growing.old growing.new
        (λ test. search_for (any_turn test) false)) }
{
    let back = fitting(start)?;
    let test = put_open(growing, Instr::JumpFalse(0))?;
    put(growing, Instr::Leave)?;
    put_truth(growing, true)?;
    let found = put_open(growing, Instr::Jump(0))?;
    let next = place(growing)?;
    patch(growing, test, Instr::JumpFalse(next));
    put(growing, Instr::Jump(back))?;
    let end = place(growing)?;
    patch(growing, start, Instr::Next(end));
    put_truth(growing, false)?;
    let out = place(growing)?;
    patch(growing, found, Instr::Jump(out));
    Ok(())
}

/// Behind the test of a loop that ends where the test is false.
pub fn close_all(growing: &mut Growing, start: usize) -> Result<(), AllocError>
    requires { start < length growing.old.instructions }
    ensures { OnOk result (Closes start (instr.Next 0) growing.old growing.new
        (λ test. search_for (all_turn test) true)) }
{
    let back = fitting(start)?;
    let test = put_open(growing, Instr::JumpFalse(0))?;
    put(growing, Instr::Jump(back))?;
    let failed = place(growing)?;
    patch(growing, test, Instr::JumpFalse(failed));
    put(growing, Instr::Leave)?;
    put_truth(growing, false)?;
    let found = put_open(growing, Instr::Jump(0))?;
    let end = place(growing)?;
    patch(growing, start, Instr::Next(end));
    put_truth(growing, true)?;
    let out = place(growing)?;
    patch(growing, found, Instr::Jump(out));
    Ok(())
}
