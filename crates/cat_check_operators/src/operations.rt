// Operators between and before operands that are known.
ghost use Rattle.std.specs.Prelude.{◌≡◌, ◌&&◌, Ok, None};
ghost use Rattle.std.specs.Option.{option_copied};
ghost use Rattle.cat_value.specs.declared.ty.Ty.TheVariants as flat_ty;
ghost use Rattle.cat_value.specs.declared.ty.Ty.TheViews as types;
ghost use Rattle.cat_tree.specs.declared.expression.Operator.TheVariants as operator;
ghost use Rattle.cat_tree.specs.declared.expression.Prefix.TheVariants as prefix;
ghost use Rattle.cat_scope.specs.declared.expr.Expr.TheViews as expr;
ghost use Rattle.cat_names.specs.declared.fault.Fault.TheVariants as faults;
ghost use Rattle.cat_names.specs.Found.{Tells, and_then, or_fault, where_true};
ghost use Rattle.cat_names.specs.Types as words;
ghost use Rattle.cat_names.specs.Rows as rows;
ghost use Rattle.cat_names.specs.Operations.{as_expected, binary_of, operated, prefixed_of, sum_of};

use crate::Resolved;
use crate::rows::{operator_for, prefix_for, sum_for};
use crate::types::{element_of, flat_of, is_as_expected, is_boolean, is_list_of, whole};
use cat_names::{Fault, Flat, Refusal};
use cat_pos::{Pos, Shared};
use cat_scope::Expr;
use cat_tree::{Operator, Prefix};
use cat_value::Ty;
use std::alloc::Global;

/// What is found, where it has the expected type.
pub fn as_expected(expected: Option<&Ty>, found: Resolved) -> Result<Resolved, Refusal>
    ensures { Tells result (as_expected (option_copied expected.entry) (Ok found)) }
{
    if is_as_expected(expected, found.ty()) {
        Ok(found)
    } else {
        Err(Refusal::Refused(Fault::TypeMismatch(found.operator())))
    }
}

/// An operator between two operands.
pub fn binary(
    alloc: Global,
    operator: Operator,
    place: Pos,
    left: Resolved,
    right: Resolved,
) -> Result<Resolved, Refusal>
    ensures { Tells result (binary_of operator place left right) }
{
    match operator {
        Operator::And => and(alloc, place, left, right),
        Operator::Or => or(alloc, place, left, right),
        Operator::Contains => contains(alloc, place, left, right),
        Operator::Xor
        | Operator::Less
        | Operator::LessEqual
        | Operator::Greater
        | Operator::GreaterEqual
        | Operator::Equal
        | Operator::NotEqual
        | Operator::Plus
        | Operator::Minus
        | Operator::Times
        | Operator::Divide => by_row(alloc, operator, place, left, right),
    }
}

fn are_booleans(left: &Resolved, right: &Resolved) -> bool
    ensures { result ≡ (words.same flat_ty.Boolean left.now.ty && words.same flat_ty.Boolean right.now.ty) }
{
    is_boolean(left.ty()) && is_boolean(right.ty())
}

fn and(alloc: Global, place: Pos, left: Resolved, right: Resolved) -> Result<Resolved, Refusal>
    ensures { Tells result (binary_of operator.And place left right) }
{
    if !are_booleans(&left, &right) {
        return Err(Refusal::Refused(Fault::TypeMismatch(place)));
    }
    let first = left.first();
    let left = Shared::new(alloc, left.into_expr().into_inner())?;
    let expr = Expr::And(first, left, right.into_expr());
    Resolved::new(alloc, first, place, expr, Ty::Boolean)
}

fn or(alloc: Global, place: Pos, left: Resolved, right: Resolved) -> Result<Resolved, Refusal>
    ensures { Tells result (binary_of operator.Or place left right) }
{
    if !are_booleans(&left, &right) {
        return Err(Refusal::Refused(Fault::TypeMismatch(place)));
    }
    let first = left.first();
    let expr = Expr::Or(first, left.into_expr(), right.into_expr());
    Resolved::new(alloc, first, place, expr, Ty::Boolean)
}

/// Whether a list has an element.
fn contains(
    alloc: Global,
    place: Pos,
    list: Resolved,
    element: Resolved,
) -> Result<Resolved, Refusal>
    ensures { Tells result (binary_of operator.Contains place list element) }
{
    match flat_of(element.ty()) {
        Some(flat) => contains_flat(alloc, place, flat, list, element),
        None => Err(Refusal::Refused(Fault::TypeMismatch(place))),
    }
}

fn contains_flat(
    alloc: Global,
    place: Pos,
    flat: Flat,
    list: Resolved,
    element: Resolved,
) -> Result<Resolved, Refusal>
    ensures { Tells result (where_true (words.same (types.List (words.whole flat)) list.ty) (faults.TypeMismatch place)
        (Ok (operated list.first place (expr.Contains list.first place list.expr element.expr) flat_ty.Boolean))) }
{
    if !is_list_of(&whole(flat), list.ty()) {
        return Err(Refusal::Refused(Fault::TypeMismatch(place)));
    }
    let first = list.first();
    let expr = Expr::Contains(first, place, list.into_expr(), element.into_expr());
    Resolved::new(alloc, first, place, expr, Ty::Boolean)
}

/// An operator that has a row for its operands.
fn by_row(
    alloc: Global,
    operator: Operator,
    place: Pos,
    left: Resolved,
    right: Resolved,
) -> Result<Resolved, Refusal>
    ensures { Tells result (and_then
        (or_fault (faults.TypeMismatch place) (rows.operator_for operator left.ty right.ty))
        (λ row. Ok (operated left.first place (expr.Binary left.first row.0 place left.expr right.expr)
        (words.whole row.1)))) }
{
    match operator_for(operator, left.ty(), right.ty()) {
        Some((row, flat)) => {
            let first = left.first();
            let expr = Expr::Binary(first, row, place, left.into_expr(), right.into_expr());
            Resolved::new(alloc, first, place, expr, whole(flat))
        }
        None => Err(Refusal::Refused(Fault::TypeMismatch(place))),
    }
}

/// A prefix before an operand.
pub fn prefixed(
    alloc: Global,
    prefix: Prefix,
    place: Pos,
    operand: Resolved,
) -> Result<Resolved, Refusal>
    ensures { Tells result (prefixed_of prefix place operand) }
{
    match prefix {
        Prefix::NumberOf => number_of(alloc, place, operand),
        Prefix::Not
        | Prefix::Negate
        | Prefix::IntegerOf
        | Prefix::DecimalOf
        | Prefix::MoneyOf
        | Prefix::RoundOf
        | Prefix::GetYear
        | Prefix::GetMonth
        | Prefix::GetDay => converted(alloc, prefix, place, operand),
    }
}

fn number_of(alloc: Global, place: Pos, list: Resolved) -> Result<Resolved, Refusal>
    ensures { Tells result (prefixed_of prefix.NumberOf place list) }
{
    if element_of(list.ty()).is_none() {
        return Err(Refusal::Refused(Fault::TypeMismatch(place)));
    }
    let expr = Expr::Length(place, list.into_expr());
    Resolved::new(alloc, place, place, expr, Ty::Integer)
}

fn converted(
    alloc: Global,
    prefix: Prefix,
    place: Pos,
    operand: Resolved,
) -> Result<Resolved, Refusal>
    ensures { Tells result (and_then (or_fault (faults.TypeMismatch place) (rows.prefix_for prefix operand.ty))
        (λ row. Ok (operated place place (expr.Unary place row.0 operand.expr) (words.whole row.1)))) }
{
    match prefix_for(prefix, operand.ty()) {
        Some((row, flat)) => {
            let expr = Expr::Unary(place, row, operand.into_expr());
            Resolved::new(alloc, place, place, expr, whole(flat))
        }
        None => Err(Refusal::Refused(Fault::TypeMismatch(place))),
    }
}

/// A sum of a list of that type.
pub fn sum(alloc: Global, place: Pos, ty: Ty, list: Resolved) -> Result<Resolved, Refusal>
    ensures { Tells result (sum_of place ty list) }
{
    let Some(kind) = sum_for(&ty) else {
        return Err(Refusal::Refused(Fault::TypeMismatch(place)));
    };
    if !is_list_of(&ty, list.ty()) {
        return Err(Refusal::Refused(Fault::TypeMismatch(place)));
    }
    let expr = Expr::Sum(place, kind, list.into_expr());
    Resolved::new(alloc, place, place, expr, ty)
}
