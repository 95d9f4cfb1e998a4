// Copies of expressions.
ghost use Rattle.std.specs.Prelude.{◌≡◌, Some, IfOk};
ghost use Rattle.cat_scope.specs.declared.expr.Expr.TheViews as expr;

use crate::{Arm, Arms, BinaryOp, Expr, Exprs, FieldValue, FieldValues};
use cat_pos::{Boxed, List, Pos, Shared};
use std::alloc::{AllocError, Global};

/// The same expression.
#[cycle(copy)]
pub fn copy_expr(alloc: Global, expr: &Expr) -> Result<Expr, AllocError>
    ensures { IfOk result (λ copied. copied ≡ expr.now) }
{
    match expr {
        Expr::Literal(pos, literal) => Ok(Expr::Literal(*pos, *literal)),
        Expr::Item(pos, item) => Ok(Expr::Item(*pos, *item)),
        Expr::Output(pos, item, output) => Ok(Expr::Output(*pos, *item, *output)),
        Expr::Local(pos, local) => Ok(Expr::Local(*pos, *local)),
        Expr::Field(pos, of, field) => Ok(Expr::Field(*pos, copy_part(alloc, of)?, *field)),
        Expr::Unary(pos, op, of) => Ok(Expr::Unary(*pos, *op, copy_part(alloc, of)?)),
        Expr::Binary(pos, op, at, left, right) => copy_binary(alloc, *pos, *op, *at, left, right),
        Expr::And(pos, left, right) => copy_and(alloc, *pos, left, right),
        Expr::Or(pos, left, right) => copy_or(alloc, *pos, left, right),
        Expr::If(pos, test, yes, no) => copy_if(alloc, *pos, test, yes, no),
        Expr::Match(pos, of, arms) => copy_match(alloc, *pos, of, arms.get()),
        Expr::IsCase(pos, of, ty, case) => Ok(Expr::IsCase(
            *pos,
            copy_part(alloc, of)?,
            *ty,
            *case,
        )),
        Expr::Case(pos, ty, case, None) => Ok(Expr::Case(*pos, *ty, *case, None)),
        Expr::Case(pos, ty, case, Some(of)) => copy_case(alloc, *pos, *ty, *case, of),
        Expr::Structure(pos, ty, of) => Ok(Expr::Structure(*pos, *ty, copy_fields(alloc, of)?)),
        Expr::List(pos, of) => Ok(Expr::List(*pos, copy_all(alloc, of)?)),
        Expr::ForAll(pos, list, test) => copy_for_all(alloc, *pos, list, test),
        Expr::Exists(pos, list, test) => copy_exists(alloc, *pos, list, test),
        Expr::Map(pos, list, body) => copy_map(alloc, *pos, list, body),
        Expr::Filter(pos, list, test) => copy_filter(alloc, *pos, list, test),
        Expr::Combine(pos, list, start, body) => copy_combine(alloc, *pos, list, start, body),
        Expr::Contains(pos, at, list, of) => copy_contains(alloc, *pos, *at, list, of),
        Expr::Length(pos, list) => Ok(Expr::Length(*pos, copy_part(alloc, list)?)),
        Expr::Sum(pos, kind, list) => Ok(Expr::Sum(*pos, *kind, copy_part(alloc, list)?)),
        Expr::Call(pos, function, of) => Ok(Expr::Call(*pos, *function, copy_all(alloc, of)?)),
        Expr::ScopeCall(pos, scope, of, output) => copy_call(
            alloc,
            *pos,
            *scope,
            of.get(),
            *output,
        ),
    }
}

#[cycle(copy)]
fn copy_part(alloc: Global, part: &Boxed<Expr>) -> Result<Boxed<Expr>, AllocError>
    ensures { IfOk result (λ copied. copied ≡ part.now) }
{
    let copied = copy_expr(alloc, part.get())?;
    Boxed::new(alloc, copied)
}

#[cycle(copy)]
fn copy_all(alloc: Global, exprs: &Exprs) -> Result<Exprs, AllocError>
    ensures { IfOk result (λ copied. copied ≡ exprs.now) }
{
    let mut copies = List::new(alloc);
    for expr in exprs.as_slice() {
        copies.push(copy_expr(alloc, expr)?)?;
    }
    Ok(copies)
}

#[cycle(copy)]
fn copy_fields(alloc: Global, fields: &FieldValues) -> Result<FieldValues, AllocError>
    ensures { IfOk result (λ copied. copied ≡ fields.now) }
{
    let mut copies = List::new(alloc);
    for field in fields.as_slice() {
        let value = copy_expr(alloc, &field.value)?;
        copies.push(FieldValue {
            field: field.field,
            value,
        })?;
    }
    Ok(copies)
}

#[cycle(copy)]
fn copy_arms(alloc: Global, arms: &Arms) -> Result<Arms, AllocError>
    ensures { IfOk result (λ copied. copied ≡ arms.now) }
{
    let mut copies = List::new(alloc);
    for arm in arms.as_slice() {
        let body = copy_expr(alloc, &arm.body)?;
        copies.push(Arm {
            pattern: arm.pattern,
            body,
        })?;
    }
    Ok(copies)
}

#[cycle(copy)]
fn copy_and(
    alloc: Global,
    pos: Pos,
    left: &Shared<Expr>,
    right: &Boxed<Expr>,
) -> Result<Expr, AllocError>
    ensures { IfOk result (λ copied. copied ≡ expr.And pos left.now right.now) }
{
    let left = left.copy()?;
    let right = copy_part(alloc, right)?;
    Ok(Expr::And(pos, left, right))
}

#[cycle(copy)]
fn copy_or(
    alloc: Global,
    pos: Pos,
    left: &Boxed<Expr>,
    right: &Boxed<Expr>,
) -> Result<Expr, AllocError>
    ensures { IfOk result (λ copied. copied ≡ expr.Or pos left.now right.now) }
{
    let left = copy_part(alloc, left)?;
    let right = copy_part(alloc, right)?;
    Ok(Expr::Or(pos, left, right))
}

#[cycle(copy)]
fn copy_for_all(
    alloc: Global,
    pos: Pos,
    list: &Boxed<Expr>,
    test: &Boxed<Expr>,
) -> Result<Expr, AllocError>
    ensures { IfOk result (λ copied. copied ≡ expr.ForAll pos list.now test.now) }
{
    let list = copy_part(alloc, list)?;
    let test = copy_part(alloc, test)?;
    Ok(Expr::ForAll(pos, list, test))
}

#[cycle(copy)]
fn copy_exists(
    alloc: Global,
    pos: Pos,
    list: &Boxed<Expr>,
    test: &Boxed<Expr>,
) -> Result<Expr, AllocError>
    ensures { IfOk result (λ copied. copied ≡ expr.Exists pos list.now test.now) }
{
    let list = copy_part(alloc, list)?;
    let test = copy_part(alloc, test)?;
    Ok(Expr::Exists(pos, list, test))
}

#[cycle(copy)]
fn copy_map(
    alloc: Global,
    pos: Pos,
    list: &Boxed<Expr>,
    body: &Boxed<Expr>,
) -> Result<Expr, AllocError>
    ensures { IfOk result (λ copied. copied ≡ expr.Map pos list.now body.now) }
{
    let list = copy_part(alloc, list)?;
    let body = copy_part(alloc, body)?;
    Ok(Expr::Map(pos, list, body))
}

#[cycle(copy)]
fn copy_filter(
    alloc: Global,
    pos: Pos,
    list: &Boxed<Expr>,
    test: &Boxed<Expr>,
) -> Result<Expr, AllocError>
    ensures { IfOk result (λ copied. copied ≡ expr.Filter pos list.now test.now) }
{
    let list = copy_part(alloc, list)?;
    let test = copy_part(alloc, test)?;
    Ok(Expr::Filter(pos, list, test))
}

#[cycle(copy)]
fn copy_binary(
    alloc: Global,
    pos: Pos,
    op: BinaryOp,
    at: Pos,
    left: &Boxed<Expr>,
    right: &Boxed<Expr>,
) -> Result<Expr, AllocError>
    ensures { IfOk result (λ copied. copied ≡ expr.Binary pos op at left.now right.now) }
{
    let left = copy_part(alloc, left)?;
    let right = copy_part(alloc, right)?;
    Ok(Expr::Binary(pos, op, at, left, right))
}

#[cycle(copy)]
fn copy_contains(
    alloc: Global,
    pos: Pos,
    at: Pos,
    list: &Boxed<Expr>,
    of: &Boxed<Expr>,
) -> Result<Expr, AllocError>
    ensures { IfOk result (λ copied. copied ≡ expr.Contains pos at list.now of.now) }
{
    let list = copy_part(alloc, list)?;
    let of = copy_part(alloc, of)?;
    Ok(Expr::Contains(pos, at, list, of))
}

#[cycle(copy)]
fn copy_if(
    alloc: Global,
    pos: Pos,
    test: &Boxed<Expr>,
    yes: &Boxed<Expr>,
    no: &Boxed<Expr>,
) -> Result<Expr, AllocError>
    ensures { IfOk result (λ copied. copied ≡ expr.If pos test.now yes.now no.now) }
{
    let test = copy_part(alloc, test)?;
    let yes = copy_part(alloc, yes)?;
    let no = copy_part(alloc, no)?;
    Ok(Expr::If(pos, test, yes, no))
}

#[cycle(copy)]
fn copy_combine(
    alloc: Global,
    pos: Pos,
    list: &Boxed<Expr>,
    start: &Boxed<Expr>,
    body: &Boxed<Expr>,
) -> Result<Expr, AllocError>
    ensures { IfOk result (λ copied. copied ≡ expr.Combine pos list.now start.now body.now) }
{
    let list = copy_part(alloc, list)?;
    let start = copy_part(alloc, start)?;
    let body = copy_part(alloc, body)?;
    Ok(Expr::Combine(pos, list, start, body))
}

#[cycle(copy)]
fn copy_match(alloc: Global, pos: Pos, of: &Boxed<Expr>, arms: &Arms) -> Result<Expr, AllocError>
    ensures { IfOk result (λ copied. copied ≡ expr.Match pos of.now arms.now) }
{
    let of = copy_part(alloc, of)?;
    let arms = Boxed::new(alloc, copy_arms(alloc, arms)?)?;
    Ok(Expr::Match(pos, of, arms))
}

#[cycle(copy)]
fn copy_case(
    alloc: Global,
    pos: Pos,
    ty: u32,
    case: u32,
    of: &Boxed<Expr>,
) -> Result<Expr, AllocError>
    ensures { IfOk result (λ copied. copied ≡ expr.Case pos ty case (Some of.now)) }
{
    let of = copy_part(alloc, of)?;
    Ok(Expr::Case(pos, ty, case, Some(of)))
}

#[cycle(copy)]
fn copy_call(
    alloc: Global,
    pos: Pos,
    scope: u32,
    of: &FieldValues,
    output: u32,
) -> Result<Expr, AllocError>
    ensures { IfOk result (λ copied. copied ≡ expr.ScopeCall pos scope of.now output) }
{
    let of = Boxed::new(alloc, copy_fields(alloc, of)?)?;
    Ok(Expr::ScopeCall(pos, scope, of, output))
}
