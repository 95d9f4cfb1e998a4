// The guards of comparisons.
ghost use Rattle.std.specs.Prelude.{IfOk};
ghost use Rattle.cat_region.specs.declared.cut.Cut.TheVariants as cuts;
ghost use Rattle.cat_guard.specs.Comparisons.{comparison_of, threshold_dim, Equal};
ghost use Rattle.cat_guard.specs.Questions.{against, ask, ask_truth, operated};
ghost use Rattle.cat_audit_table.specs.Numbered.{AddsGuard, items_at, standing_at};
ghost use Rattle.cat_audit_table.specs.inside.Seen.{seen};

use crate::comparison::{Comparison, comparison_of};
use crate::connectives::{conjunction, negation};
use crate::constant::{constant_of, threshold_dim};
use crate::here::ConditionContext;
use crate::numbering::Numbering;
use cat_guard::Guard;
use cat_region::{Cut, Dim, Threshold};
use cat_scope::{BinaryOp, Expr};
use std::alloc::AllocError;

/// Whether a condition is true that is not taken apart further.
pub fn ask_truth(
    here: &ConditionContext,
    numbering: &mut Numbering,
    expr: &Expr,
) -> Result<Guard, AllocError>
    ensures { IfOk result (AddsGuard (items_at here.now) (ask_truth (standing_at here.now) expr.now) numbering.old
        numbering.new) }
{
    numbering.ask(here, expr, Dim::Truth, Cut::IsTrue)
}

/// Whether the value of an expression lies below a constant.
fn below(
    here: &ConditionContext,
    numbering: &mut Numbering,
    of: &Expr,
    threshold: &Threshold,
) -> Result<Guard, AllocError>
    ensures { IfOk result (AddsGuard (items_at here.now)
        (ask (standing_at here.now) of.now (threshold_dim threshold.now) (cuts.Below threshold.now)) numbering.old
        numbering.new) }
{
    numbering.ask(here, of, threshold_dim(threshold), Cut::Below(*threshold))
}

/// Whether it is at most that.
fn at_most(
    here: &ConditionContext,
    numbering: &mut Numbering,
    of: &Expr,
    threshold: &Threshold,
) -> Result<Guard, AllocError>
    ensures { IfOk result (AddsGuard (items_at here.now)
        (ask (standing_at here.now) of.now (threshold_dim threshold.now) (cuts.AtMost threshold.now)) numbering.old
        numbering.new) }
{
    numbering.ask(here, of, threshold_dim(threshold), Cut::AtMost(*threshold))
}

/// Whether it is equal to that: at most that, and not below it.
#[tactic(auto, using(crate::proofs::Adding::steps))]
fn equal(
    here: &ConditionContext,
    numbering: &mut Numbering,
    of: &Expr,
    threshold: &Threshold,
) -> Result<Guard, AllocError>
    ensures { IfOk result (AddsGuard (items_at here.now) (against (standing_at here.now) of.now Equal threshold.now)
        numbering.old numbering.new) }
{
    let most = at_most(here, numbering, of, threshold)?;
    let less = below(here, numbering, of, threshold)?;
    let not_less = negation(here.alloc, less)?;
    conjunction(here.alloc, most, not_less)
}

/// An expression compared with a constant on its right.
#[tactic(auto, using(crate::proofs::Adding::steps))]
fn against(
    here: &ConditionContext,
    numbering: &mut Numbering,
    of: &Expr,
    comparison: Comparison,
    threshold: &Threshold,
) -> Result<Guard, AllocError>
    ensures { IfOk result (AddsGuard (items_at here.now)
        (against (standing_at here.now) of.now (seen comparison) threshold.now) numbering.old numbering.new) }
{
    match comparison {
        Comparison::Less => below(here, numbering, of, threshold),
        Comparison::AtMost => at_most(here, numbering, of, threshold),
        Comparison::Greater => {
            let at_most = at_most(here, numbering, of, threshold)?;
            negation(here.alloc, at_most)
        }
        Comparison::AtLeast => {
            let below = below(here, numbering, of, threshold)?;
            negation(here.alloc, below)
        }
        Comparison::Equal => equal(here, numbering, of, threshold),
        Comparison::Unequal => {
            let equal = equal(here, numbering, of, threshold)?;
            negation(here.alloc, equal)
        }
    }
}

/// An operator that may compare: with the constant on the right, and else with the one on the left, turned round.
pub fn operated(
    here: &ConditionContext,
    numbering: &mut Numbering,
    op: BinaryOp,
    left: &Expr,
    right: &Expr,
    whole: &Expr,
) -> Result<Guard, AllocError>
    ensures { IfOk result (AddsGuard (items_at here.now)
        (operated (standing_at here.now) whole.now (comparison_of op) left.now right.now) numbering.old
        numbering.new) }
{
    let Some(comparison) = comparison_of(op) else {
        return ask_truth(here, numbering, whole);
    };
    if let Some(threshold) = constant_of(right) {
        return against(here, numbering, left, comparison, &threshold);
    }
    match constant_of(left) {
        Some(threshold) => against(here, numbering, right, comparison.turned(), &threshold),
        None => ask_truth(here, numbering, whole),
    }
}
