// The guards of conditions.
ghost use Rattle.std.specs.Prelude.{◌≡◌, IfOk};
ghost use Rattle.cat_guard.specs.Formulas.{Both, Choice, Differ, Either, Not};
ghost use Rattle.cat_guard.specs.Questions as questions;
ghost use Rattle.cat_guard.specs.Questions.{binary_guard, literal_guard, unary_guard};
ghost use Rattle.cat_audit_table.specs.Numbered.{AddsGuard, guard_at, items_at, standing_at};
ghost use Rattle.cat_audit_table.specs.inside.Seen.{case_at, case_count};

use crate::compared::{ask_truth, operated};
use crate::connectives::{conjunction, difference, disjunction, negation, selection};
use crate::here::ConditionContext;
use crate::numbering::Numbering;
use cat_guard::Guard;
use cat_pos::Shared;
use cat_region::{Cut, Dim};
use cat_scope::{BinaryOp, Expr, Literal, UnaryOp};
use cat_value::{Decls, declarations_are_sound};
use std::alloc::AllocError;

/// The guard of a condition: true where there is none. It takes time in proportion to the condition, and copies each
/// term that is new.
pub fn condition_guard(
    here: &ConditionContext,
    numbering: &mut Numbering,
    condition: &Option<Shared<Expr>>,
) -> Result<Guard, AllocError>
    ensures { IfOk result (AddsGuard (items_at here.now)
        (questions.condition_guard here.now.decls.now (standing_at here.now) condition.now) numbering.old
        numbering.new) }
{
    match condition {
        Some(condition) => guard(here, numbering, condition.get()),
        None => Ok(Guard::Constant(true)),
    }
}

/// The guard of an expression.
#[cycle(guard)]
#[tactic(auto, using(crate::proofs::GuardForms::forms))]
fn guard(
    here: &ConditionContext,
    numbering: &mut Numbering,
    expr: &Expr,
) -> Result<Guard, AllocError>
    ensures { IfOk result (AddsGuard (items_at here.now) (guard_at here.now expr.now) numbering.old numbering.new) }
{
    match expr {
        Expr::Literal(_, literal) => of_literal(here, numbering, *literal, expr),
        Expr::Unary(_, op, of) => of_unary(here, numbering, *op, of.get(), expr),
        Expr::Binary(_, op, _, left, right) => {
            of_binary(here, numbering, *op, left.get(), right.get(), expr)
        }
        Expr::And(_, left, right) => both(here, numbering, left.get(), right.get()),
        Expr::Or(_, left, right) => either(here, numbering, left.get(), right.get()),
        Expr::If(_, test, yes, no) => choice(here, numbering, test.get(), yes.get(), no.get()),
        Expr::IsCase(_, of, ty, case) => of_case(here, numbering, of.get(), *ty, *case),
        Expr::Item(_, _)
        | Expr::Output(_, _, _)
        | Expr::Local(_, _)
        | Expr::Field(_, _, _)
        | Expr::Match(_, _, _)
        | Expr::Case(_, _, _, _)
        | Expr::Structure(_, _, _)
        | Expr::List(_, _)
        | Expr::ForAll(_, _, _)
        | Expr::Exists(_, _, _)
        | Expr::Map(_, _, _)
        | Expr::Filter(_, _, _)
        | Expr::Combine(_, _, _, _)
        | Expr::Contains(_, _, _, _)
        | Expr::Length(_, _)
        | Expr::Sum(_, _, _)
        | Expr::Call(_, _, _)
        | Expr::ScopeCall(_, _, _, _) => ask_truth(here, numbering, expr),
    }
}

/// A literal.
fn of_literal(
    here: &ConditionContext,
    numbering: &mut Numbering,
    literal: Literal,
    whole: &Expr,
) -> Result<Guard, AllocError>
    ensures { IfOk result (AddsGuard (items_at here.now) (literal_guard (standing_at here.now) whole.now literal)
        numbering.old numbering.new) }
{
    match literal {
        Literal::Boolean(value) => Ok(Guard::Constant(value)),
        Literal::Integer(_)
        | Literal::Decimal(_)
        | Literal::Money(_)
        | Literal::Date(_)
        | Literal::Duration(_) => ask_truth(here, numbering, whole),
    }
}

/// How many cases an enumeration has.
fn case_count(decls: &Decls, ty: u32) -> u32
    ensures { result ≡ case_count decls.now ty }
{
    declarations_are_sound(decls);
    match decls.enumerations.get(ty as usize) {
        Some(enumeration) => enumeration.cases.len() as u32,
        None => 0,
    }
}

/// A test for a case.
fn of_case(
    here: &ConditionContext,
    numbering: &mut Numbering,
    of: &Expr,
    ty: u32,
    case: u32,
) -> Result<Guard, AllocError>
    ensures { IfOk result (AddsGuard (items_at here.now) (case_at here.now of.now ty case) numbering.old
        numbering.new) }
{
    let dim = Dim::Cases(case_count(here.decls, ty));
    numbering.ask(here, of, dim, Cut::IsCase(case))
}

/// An operator before a condition.
#[cycle(guard)]
#[tactic(auto, using(crate::proofs::Adding::steps))]
fn of_unary(
    here: &ConditionContext,
    numbering: &mut Numbering,
    op: UnaryOp,
    of: &Expr,
    whole: &Expr,
) -> Result<Guard, AllocError>
    ensures { IfOk result (AddsGuard (items_at here.now)
        (unary_guard (standing_at here.now) whole.now op (guard_at here.now of.now)) numbering.old numbering.new) }
{
    match op {
        UnaryOp::Not => {
            let inner = guard(here, numbering, of)?;
            negation(here.alloc, inner)
        }
        _ => ask_truth(here, numbering, whole),
    }
}

/// An operator between two expressions.
#[cycle(guard)]
fn of_binary(
    here: &ConditionContext,
    numbering: &mut Numbering,
    op: BinaryOp,
    left: &Expr,
    right: &Expr,
    whole: &Expr,
) -> Result<Guard, AllocError>
    ensures { IfOk result (AddsGuard (items_at here.now)
        (binary_guard (standing_at here.now) whole.now op left.now (guard_at here.now left.now) right.now
        (guard_at here.now right.now)) numbering.old numbering.new) }
{
    match op {
        BinaryOp::Xor => differ(here, numbering, left, right),
        _ => operated(here, numbering, op, left, right, whole),
    }
}

#[cycle(guard)]
fn both(
    here: &ConditionContext,
    numbering: &mut Numbering,
    left: &Expr,
    right: &Expr,
) -> Result<Guard, AllocError>
    ensures { IfOk result (AddsGuard (items_at here.now)
        (Both (guard_at here.now left.now) (guard_at here.now right.now)) numbering.old numbering.new) }
{
    let left = guard(here, numbering, left)?;
    let right = guard(here, numbering, right)?;
    conjunction(here.alloc, left, right)
}

#[cycle(guard)]
fn either(
    here: &ConditionContext,
    numbering: &mut Numbering,
    left: &Expr,
    right: &Expr,
) -> Result<Guard, AllocError>
    ensures { IfOk result (AddsGuard (items_at here.now)
        (Either (guard_at here.now left.now) (guard_at here.now right.now)) numbering.old numbering.new) }
{
    let left = guard(here, numbering, left)?;
    let right = guard(here, numbering, right)?;
    disjunction(here.alloc, left, right)
}

#[cycle(guard)]
fn differ(
    here: &ConditionContext,
    numbering: &mut Numbering,
    left: &Expr,
    right: &Expr,
) -> Result<Guard, AllocError>
    ensures { IfOk result (AddsGuard (items_at here.now)
        (Differ (guard_at here.now left.now) (guard_at here.now right.now)) numbering.old numbering.new) }
{
    let left = guard(here, numbering, left)?;
    let right = guard(here, numbering, right)?;
    difference(here.alloc, left, right)
}

#[cycle(guard)]
fn choice(
    here: &ConditionContext,
    numbering: &mut Numbering,
    test: &Expr,
    yes: &Expr,
    no: &Expr,
) -> Result<Guard, AllocError>
    ensures { IfOk result (AddsGuard (items_at here.now)
        (Choice (guard_at here.now test.now) (guard_at here.now yes.now) (guard_at here.now no.now)) numbering.old
        numbering.new) }
{
    let test = guard(here, numbering, test)?;
    let yes = guard(here, numbering, yes)?;
    let no = guard(here, numbering, no)?;
    selection(here.alloc, test, yes, no)
}
