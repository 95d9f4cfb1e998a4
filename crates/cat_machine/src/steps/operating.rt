// What operators and assertions do.
ghost use Rattle.std.specs.Prelude.{◌≡◌, ◌≢◌, ◌≤◌, ◌<◌, ◌+◌, ◌^◌, [], IfOk, IsOk, IsSome, OnOk, Some, length};
ghost use Rattle.std.specs.Prelude.{slice_get};
ghost use Rattle.cat_pos.specs.declared.pos.Pos.{Pos as At};
ghost use Rattle.cat_value.specs.declared.value.Value.{Value as Valued};
ghost use Rattle.cat_value.specs.declared.value.Value.TheVariants as flat;
ghost use Rattle.cat_scope.specs.Operators.{convert, operate};
ghost use Rattle.cat_code.specs.Moves.{pushes};
ghost use Rattle.cat_code.specs.Operations.{Between, operation, roundings};
ghost use Rattle.cat_pool.specs.Nodes.{AreBelow};
ghost use Rattle.cat_scalar.specs.Scalars.{as_reply, scalar_of, scalar_reply};
ghost use Rattle.cat_machine.specs.inside.Putting.{HasTruths, Pops, Puts, operation_of, scalar_at, truth_in};
ghost use Rattle.cat_machine.specs.inside.Putting.{with_truth};
ghost use Rattle.cat_code.specs.States.{stuck};
ghost use Rattle.cat_code.specs.Machine.{act, operates};
ghost use Rattle.cat_code.specs.declared.instr.Instr.TheVariants as instr;
ghost use Rattle.cat_machine.specs.States.{state_at};
ghost use Rattle.cat_machine.specs.Steps.{OneMore, Tells};
ghost use Rattle.cat_machine.specs.inside.Machines.{IsMachine};

use crate::machine::{End, Machine, Stepped, Truths};
use crate::steps::frequent::frequent;
use cat_code::Code;
use cat_date::Rounding;
use cat_pool::{PoolNode, Ref};
use cat_pos::Pos;
use cat_scalar::{NoResult, Scalar, convert, operate};
use cat_scope::{BinaryOp, UnaryOp};
use cat_value::FaultKind;
use std::alloc::AllocError;

/// An operator before one operand, or between two.
#[derive(Clone, Copy)]
enum Operation {
    Before(UnaryOp),
    Between(BinaryOp),
}

/// The node of a truth value, once there is one.
fn truth_in(truths: Truths, truth: bool) -> Option<Ref>
    ensures { result ≡ truth_in truth truths }
{
    if truth { truths.yes } else { truths.no }
}

fn with_truth(truths: Truths, truth: bool, r: Ref) -> Truths
    ensures { result ≡ with_truth truth r truths }
{
    if truth {
        Truths {
            yes: Some(r),
            no: truths.no,
        }
    } else {
        Truths {
            yes: truths.yes,
            no: Some(r),
        }
    }
}

/// The node of a truth value, which is made once.
pub fn truth_of(m: &mut Machine, truth: bool) -> Result<Ref, AllocError>
    requires { HasTruths m.old }
    ensures ok { IfOk result (Puts m.old m.new (flat.Boolean truth)) }
    ensures pool { OneMore m.old.pool m.new.pool }
{
    if let Some(r) = truth_in(m.truths, truth) {
        return Ok(r);
    }
    let r = m.pool.put(PoolNode::Boolean(truth))?;
    m.truths = with_truth(m.truths, truth, r);
    Ok(r)
}

/// The operator of a number up to 23: each stands between two operands.
fn arithmetic_at(n: u32) -> BinaryOp
    requires first { 1 ≤ n }
    requires last { n < 24 }
    ensures { operation n ≡ Some (Between result) }
{
    match n {
        1 => BinaryOp::AddIntegers,
        2 => BinaryOp::SubtractIntegers,
        3 => BinaryOp::MultiplyIntegers,
        4 => BinaryOp::DivideIntegers,
        5 => BinaryOp::AddDecimals,
        6 => BinaryOp::SubtractDecimals,
        7 => BinaryOp::MultiplyDecimals,
        8 => BinaryOp::DivideDecimals,
        9 => BinaryOp::AddMoney,
        10 => BinaryOp::SubtractMoney,
        11 => BinaryOp::MultiplyMoneyByDecimal,
        12 => BinaryOp::MultiplyDecimalByMoney,
        13 => BinaryOp::MultiplyMoneyByInteger,
        14 => BinaryOp::MultiplyIntegerByMoney,
        15 => BinaryOp::DivideMoneyByDecimal,
        16 => BinaryOp::DivideMoneyByInteger,
        17 => BinaryOp::DivideMoney,
        18 => BinaryOp::AddDurationToDate,
        19 => BinaryOp::SubtractDurationFromDate,
        20 => BinaryOp::SubtractDates,
        21 => BinaryOp::AddDurations,
        22 => BinaryOp::SubtractDurations,
        23 => BinaryOp::MultiplyDurationByInteger,
        _ => unreachable!(),
    }
}

/// The operator of a number from 24 on.
fn other_at(n: u32) -> Operation
    requires first { 24 ≤ n }
    requires last { n ≤ 45 }
    ensures { operation n ≡ Some (operation_of result) }
{
    match n {
        24 => Operation::Before(UnaryOp::NegateInteger),
        25 => Operation::Before(UnaryOp::NegateDecimal),
        26 => Operation::Before(UnaryOp::NegateMoney),
        27 => Operation::Before(UnaryOp::NegateDuration),
        28 => Operation::Before(UnaryOp::Not),
        29 => Operation::Between(BinaryOp::Xor),
        30 => Operation::Between(BinaryOp::Less),
        31 => Operation::Between(BinaryOp::AtMost),
        32 => Operation::Between(BinaryOp::Greater),
        33 => Operation::Between(BinaryOp::AtLeast),
        34 => Operation::Between(BinaryOp::Equal),
        35 => Operation::Between(BinaryOp::Unequal),
        36 => Operation::Before(UnaryOp::IntegerOfDecimal),
        37 => Operation::Before(UnaryOp::DecimalOfInteger),
        38 => Operation::Before(UnaryOp::DecimalOfMoney),
        39 => Operation::Before(UnaryOp::MoneyOfDecimal),
        40 => Operation::Before(UnaryOp::MoneyOfInteger),
        41 => Operation::Before(UnaryOp::RoundDecimal),
        42 => Operation::Before(UnaryOp::RoundMoney),
        43 => Operation::Before(UnaryOp::YearOfDate),
        44 => Operation::Before(UnaryOp::MonthOfDate),
        45 => Operation::Before(UnaryOp::DayOfDate),
        _ => unreachable!(),
    }
}

/// The operator of a number.
#[inline(never)]
fn operation_at(n: u32) -> Operation
    requires { IsSome (operation n) }
    ensures { operation n ≡ Some (operation_of result) }
{
    if n < 24 {
        Operation::Between(arithmetic_at(n))
    } else {
        other_at(n)
    }
}

/// What becomes of a day that its month lacks, by its number.
fn rounding_at(n: u32) -> Rounding
    requires { IsSome (slice_get roundings n) }
    ensures { slice_get roundings n ≡ Some result }
{
    match n {
        0 => Rounding::Refuse,
        1 => Rounding::Up,
        2 => Rounding::Down,
        _ => unreachable!(),
    }
}

/// What is in a node that has no parts.
fn scalar_at(node: &PoolNode) -> Scalar
    ensures { result ≡ scalar_at node.now }
{
    match *node {
        PoolNode::Boolean(truth) => Scalar::Boolean(truth),
        PoolNode::Integer(whole) => Scalar::Integer(whole),
        PoolNode::Decimal(frac) => Scalar::Decimal(frac),
        PoolNode::Money(money) => Scalar::Money(money),
        PoolNode::Date(day) => Scalar::Date(day),
        PoolNode::Duration(span) => Scalar::Duration(span),
        PoolNode::List(_) => Scalar::Compound,
        PoolNode::Structure(_) => Scalar::Compound,
        PoolNode::Case(_, _) => Scalar::Compound,
    }
}

/// The operand on top, which is popped.
fn operand(m: &mut Machine) -> Ref
    requires below { AreBelow (length m.old.pool) m.old.operands }
    requires some { m.old.operands ≢ [] }
    ensures { Pops m.old m.new result }
{
    let Some(r) = m.operands.pop() else {
        unreachable!()
    };
    r
}

/// What an operator gives before a node.
#[inline(never)]
fn before(op: UnaryOp, node: &PoolNode) -> Result<Scalar, NoResult>
    ensures { (p : At) (v : Valued) → scalar_of v ≡ scalar_at node.now → as_reply p result ≡ convert op p v }
{
    convert(op, scalar_at(node))
}

/// What an operator gives between two nodes of any kinds.
#[inline(never)]
fn between_any(
    rounding: Rounding,
    op: BinaryOp,
    left: &PoolNode,
    right: &PoolNode,
) -> Result<Scalar, NoResult>
    ensures { (p : At) (v w : Valued) → scalar_of v ≡ scalar_at left.now → scalar_of w ≡ scalar_at right.now
        → as_reply p result ≡ operate rounding op p v w }
{
    operate(rounding, op, scalar_at(left), scalar_at(right))
}

/// What an operator gives between two nodes. What is called, for the operators that aren't frequent, is taken apart: so
/// nothing else is written to memory.
#[inline(always)]
fn between(
    rounding: Rounding,
    op: BinaryOp,
    left: &PoolNode,
    right: &PoolNode,
) -> Result<Scalar, NoResult>
    ensures { (p : At) (v w : Valued) → scalar_of v ≡ scalar_at left.now → scalar_of w ≡ scalar_at right.now
        → as_reply p result ≡ operate rounding op p v w }
{
    if let Some(scalar) = frequent(op, left, right) {
        return Ok(scalar);
    }
    match between_any(rounding, op, left, right) {
        Ok(scalar) => Ok(scalar),
        Err(none) => Err(none),
    }
}

/// The node of a scalar: a new one, but of a truth value.
#[inline(always)]
fn put_scalar(m: &mut Machine, scalar: Scalar) -> Result<Ref, AllocError>
    requires truths { HasTruths m.old }
    requires plain { IsOk (scalar_reply scalar) }
    ensures ok { IfOk result (λ r. IfOk (scalar_reply scalar) (λ v. Puts m.old m.new v r)) }
    ensures pool { OneMore m.old.pool m.new.pool }
{
    match scalar {
        Scalar::Boolean(truth) => truth_of(m, truth),
        Scalar::Integer(whole) => m.pool.put(PoolNode::Integer(whole)),
        Scalar::Decimal(frac) => m.pool.put(PoolNode::Decimal(frac)),
        Scalar::Money(money) => m.pool.put(PoolNode::Money(money)),
        Scalar::Date(day) => m.pool.put(PoolNode::Date(day)),
        Scalar::Duration(span) => m.pool.put(PoolNode::Duration(span)),
        Scalar::Compound => unreachable!(),
    }
}

/// Pushes a result, or ends with its fault.
#[inline(always)]
fn push_result(
    code: &Code,
    m: &mut Machine,
    place: usize,
    pos: Pos,
    made: Result<Scalar, NoResult>,
) -> Result<Stepped, AllocError>
    requires machine { IsMachine code.now.tables m.old }
    requires place { place + 1 < 2 ^ 64 }
    requires going { pushes (as_reply pos made) (state_at code.now.tables place m.old) ≢ stuck }
    ensures told { Tells code.now.tables result
        (pushes (as_reply pos made) (state_at code.now.tables place m.old)) m.old m.new }
    ensures machine { OnOk result (IsMachine code.now.tables m.new) }
    ensures pool { OneMore m.old.pool m.new.pool }
{
    match made {
        Ok(scalar) => {
            let r = put_scalar(m, scalar)?;
            m.operands.push(r)?;
            Ok(Stepped::To(place + 1))
        }
        Err(NoResult::Fault(kind)) => Ok(Stepped::Over(End::Fault(kind, pos))),
        Err(NoResult::Stuck) => unreachable!(),
    }
}

/// Pops the operands of an operation, and pushes its result, or ends with its fault.
#[inline(always)]
fn apply(
    code: &Code,
    m: &mut Machine,
    place: usize,
    operation: Operation,
    rounding: Rounding,
    pos: Pos,
) -> Result<Stepped, AllocError>
    requires machine { IsMachine code.now.tables m.old }
    requires place { place + 1 < 2 ^ 64 }
    requires going { operates (operation_of operation) rounding pos (state_at code.now.tables place m.old) ≢ stuck }
    ensures told { Tells code.now.tables result
        (operates (operation_of operation) rounding pos (state_at code.now.tables place m.old)) m.old m.new }
    ensures machine { OnOk result (IsMachine code.now.tables m.new) }
    ensures pool { OneMore m.old.pool m.new.pool }
{
    match operation {
        Operation::Before(op) => {
            let only = operand(m);
            let made = before(op, m.pool.look(only));
            push_result(code, m, place, pos, made)
        }
        Operation::Between(op) => {
            let right = operand(m);
            let left = operand(m);
            let made = between(rounding, op, m.pool.look(left), m.pool.look(right));
            push_result(code, m, place, pos, made)
        }
    }
}

/// What an operator does.
pub fn operator(
    code: &Code,
    m: &mut Machine,
    place: usize,
    n: u32,
    r: u32,
    p: u32,
) -> Result<Stepped, AllocError>
    requires machine { IsMachine code.now.tables m.old }
    requires place { place + 1 < 2 ^ 64 }
    requires going { act code.now.tables (instr.Op n r p) (state_at code.now.tables place m.old) ≢ stuck }
    ensures told { Tells code.now.tables result
        (act code.now.tables (instr.Op n r p) (state_at code.now.tables place m.old)) m.old m.new }
    ensures machine { OnOk result (IsMachine code.now.tables m.new) }
    ensures pool { OneMore m.old.pool m.new.pool }
{
    let pos = *code.tables.positions.at(p as usize);
    let operation = operation_at(n);
    let rounding = rounding_at(r);
    apply(code, m, place, operation, rounding, pos)
}

/// Pops a truth value, and ends with a fault if it is false.
pub fn assertion(code: &Code, m: &mut Machine, place: usize, p: u32) -> Result<Stepped, AllocError>
    requires machine { IsMachine code.now.tables m.old }
    requires place { place + 1 < 2 ^ 64 }
    requires going { act code.now.tables (instr.Assert p) (state_at code.now.tables place m.old) ≢ stuck }
    ensures told { Tells code.now.tables result
        (act code.now.tables (instr.Assert p) (state_at code.now.tables place m.old)) m.old m.new }
    ensures machine { OnOk result (IsMachine code.now.tables m.new) }
    ensures pool { OneMore m.old.pool m.new.pool }
{
    let pos = *code.tables.positions.at(p as usize);
    let Some(r) = m.operands.pop() else {
        unreachable!()
    };
    let PoolNode::Boolean(truth) = *m.pool.look(r) else {
        unreachable!()
    };
    if truth {
        return Ok(Stepped::To(place + 1));
    }
    Ok(Stepped::Over(End::Fault(FaultKind::AssertionFailed, pos)))
}
