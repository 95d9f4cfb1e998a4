// Code that grows.
ghost use Rattle.std.specs.Prelude.{◌≡◌, ◌<◌, ◌+◌, ◌++◌, ◌∷◌, [], OnOk, IfOk, length};
ghost use Rattle.cat_value.specs.declared.value.Value.TheViews as value;
ghost use Rattle.cat_code.specs.declared.instr.Instr.TheVariants as instr;
ghost use Rattle.cat_lower.specs.Grown.{Grown, Patched};
ghost use Rattle.cat_lower.specs.Laying.{one, entry, with_constant, with_position};
ghost use Rattle.cat_lower.specs.Pieces.{constant, operator, truth};

use cat_code::{Constant, Constants, Instr, Instrs, TargetEntries, TargetEntry};
use cat_pos::{List, Pos, Positions};
use cat_value::{Ty, Value};
use std::alloc::{AllocError, Global};

/// Instructions, and the tables to which they add.
#[derive(Debug, Drop)]
pub struct Growing {
    pub instructions: Instrs,
    pub constants: Constants,
    pub positions: Positions,
    pub targets: TargetEntries,
}

/// A number of an instruction, where it fits.
pub fn fitting(n: usize) -> Result<u32, AllocError>
    ensures { IfOk result (λ m. m ≡ n) }
{
    let Ok(m) = u32::try_from(n) else {
        return Err(AllocError);
    };
    Ok(m)
}

/// One more instruction.
pub fn put(growing: &mut Growing, instr: Instr) -> Result<(), AllocError>
    ensures { OnOk result (Grown growing.old growing.new (one instr)) }
{
    growing.instructions.push(instr)?;
    Ok(())
}

/// An instruction that is patched later, and its place.
pub fn put_open(growing: &mut Growing, instr: Instr) -> Result<usize, AllocError>
    ensures place { IfOk result (λ at. at ≡ length growing.old.instructions) }
    ensures grown { OnOk result (Grown growing.old growing.new (one instr)) }
{
    let at = growing.instructions.len();
    put(growing, instr)?;
    Ok(at)
}

/// A sum, where it fits.
pub fn added(left: usize, right: usize) -> Result<usize, AllocError>
    ensures { IfOk result (λ n. n ≡ left + right) }
{
    let Some(sum) = left.checked_add(right) else {
        return Err(AllocError);
    };
    Ok(sum)
}

/// The number behind an instruction's.
pub fn behind(at: usize) -> Result<u32, AllocError>
    ensures { IfOk result (λ n. n ≡ at + 1) }
{
    fitting(added(at, 1)?)
}

/// The number of the next instruction.
pub fn place(growing: &Growing) -> Result<u32, AllocError>
    ensures { IfOk result (λ n. n ≡ length growing.now.instructions) }
{
    fitting(growing.instructions.len())
}

/// An instruction that pushes a constant of its own.
pub fn put_constant(growing: &mut Growing, ty: Ty, value: Value) -> Result<(), AllocError>
    ensures { OnOk result (Grown growing.old growing.new (constant ty value)) }
{
    let k = fitting(growing.constants.len())?;
    growing.constants.push(Constant { ty, value })?;
    growing.instructions.push(Instr::Const(k))?;
    Ok(())
}

/// An instruction that pushes a truth value.
pub fn put_truth(growing: &mut Growing, told: bool) -> Result<(), AllocError>
    ensures { OnOk result (Grown growing.old growing.new (truth told)) }
{
    put_constant(growing, Ty::Boolean, Value::Boolean(told))
}

/// An instruction that begins a loop, with a constant of its own: an empty list of the type of what it collects.
pub fn put_collecting(growing: &mut Growing, alloc: Global, ty: Ty) -> Result<(), AllocError>
    ensures { OnOk result (Grown growing.old growing.new
        (with_constant (λ k. instr.IterList k) (record { ty = ty; value = value.List [] }))) }
{
    let k = fitting(growing.constants.len())?;
    let value = Value::List(List::new(alloc));
    growing.constants.push(Constant { ty, value })?;
    growing.instructions.push(Instr::IterList(k))?;
    Ok(())
}

/// An operator, whose fault stands at a position of its own.
pub fn put_operator(
    growing: &mut Growing,
    number: u32,
    rounding: u32,
    pos: Pos,
) -> Result<(), AllocError>
    ensures { OnOk result (Grown growing.old growing.new (operator number rounding pos)) }
{
    let at = fitting(growing.positions.len())?;
    growing.positions.push(pos)?;
    growing.instructions.push(Instr::Op(number, rounding, at))?;
    Ok(())
}

/// An assertion, whose fault stands at a position of its own.
pub fn put_assertion(growing: &mut Growing, pos: Pos) -> Result<(), AllocError>
    ensures { OnOk result (Grown growing.old growing.new (with_position (λ p. instr.Assert p) pos)) }
{
    let at = fitting(growing.positions.len())?;
    growing.positions.push(pos)?;
    growing.instructions.push(Instr::Assert(at))?;
    Ok(())
}

/// An entry of a target.
pub fn put_target(growing: &mut Growing, target: TargetEntry) -> Result<(), AllocError>
    ensures { OnOk result (Grown growing.old growing.new (entry target)) }
{
    growing.targets.push(target)?;
    Ok(())
}

/// Puts another instruction in the place of one.
pub fn patch(growing: &mut Growing, at: usize, instr: Instr)
    requires { at < length growing.old.instructions }
    ensures { Patched growing.old growing.new at instr }
{
    growing.instructions.set(at, instr);
}
