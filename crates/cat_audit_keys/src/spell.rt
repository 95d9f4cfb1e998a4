// Spells the keys of expressions.
ghost use Rattle.std.specs.Prelude.{◌≡◌, ◌+◌, ◌∷◌, ◌++◌, [], length, IfOk};
ghost use Rattle.cat_audit_keys.specs.Keys.{key_of, pattern_numbers};
ghost use Rattle.cat_audit_keys.specs.Standings.{standing};
ghost use Rattle.cat_audit_keys.specs.inside.Fronts.{front_of, keys_of, body_keys, value_keys};
ghost use Rattle.cat_audit_keys.specs.inside.Fronts.{patterns_in, fields_in};

use crate::form::{Spelling, with_front};
use crate::literal::{with_literal, with_local};
use crate::operator::{binary_number, sum_number, unary_number};
use cat_pos::List;
use cat_scope::{ArmPattern, Arms, Expr, Exprs, FieldValues};
use std::alloc::{AllocError, Global};

/// In whose definitions an expression stands: the item, and how many parameters it has.
#[derive(Clone, Copy, PartialEq, Eq, Debug)]
pub struct Place {
    pub function: u32,
    pub params: u32,
}

/// Behind a key that of an expression.
#[cycle(spell)]
#[tactic(auto, using(crate::proofs::KeyEquations::keys))]
pub fn with_key(
    alloc: Global,
    key: Spelling,
    place: Place,
    expr: &Expr,
) -> Result<Spelling, AllocError>
    ensures { IfOk result (λ longer. longer ≡ key ++ key_of (standing place.function place.params) expr.now) }
{
    match expr {
        Expr::Literal(_, literal) => with_literal(alloc, key, *literal),
        Expr::Item(_, item) => with_front(alloc, key, 1, &[*item as u64], 0),
        Expr::Output(_, item, output) => with_front(
            alloc,
            key,
            2,
            &[*item as u64, *output as u64],
            0,
        ),
        Expr::Local(_, local) => with_local(alloc, key, place.function, place.params, *local),
        Expr::Field(_, of, field) => one(alloc, key, place, 4, &[*field as u64], of.get()),
        Expr::Unary(_, op, of) => one(alloc, key, place, 5, &[unary_number(*op)], of.get()),
        Expr::Binary(_, op, _, left, right) => {
            two(
                alloc,
                key,
                place,
                6,
                &[binary_number(*op)],
                left.get(),
                right.get(),
            )
        }
        Expr::And(_, left, right) => two(alloc, key, place, 7, &[], left.get(), right.get()),
        Expr::Or(_, left, right) => two(alloc, key, place, 8, &[], left.get(), right.get()),
        Expr::If(_, test, yes, no) => three(alloc, key, place, 9, test.get(), yes.get(), no.get()),
        Expr::Match(_, of, arms) => matched(alloc, key, place, of.get(), arms.get()),
        Expr::IsCase(_, of, ty, case) => {
            one(alloc, key, place, 11, &[*ty as u64, *case as u64], of.get())
        }
        Expr::Case(_, ty, case, content) => match content {
            Some(of) => one(alloc, key, place, 12, &[*ty as u64, *case as u64], of.get()),
            None => with_front(alloc, key, 12, &[*ty as u64, *case as u64], 0),
        },
        Expr::Structure(_, ty, fields) => structure(alloc, key, place, *ty, fields),
        Expr::List(_, all) => each(alloc, key, place, 14, &[], all),
        Expr::ForAll(_, list, test) => two(alloc, key, place, 15, &[], list.get(), test.get()),
        Expr::Exists(_, list, test) => two(alloc, key, place, 16, &[], list.get(), test.get()),
        Expr::Map(_, list, body) => two(alloc, key, place, 17, &[], list.get(), body.get()),
        Expr::Filter(_, list, test) => two(alloc, key, place, 18, &[], list.get(), test.get()),
        Expr::Combine(_, list, start, body) => {
            three(alloc, key, place, 19, list.get(), start.get(), body.get())
        }
        Expr::Contains(_, _, list, of) => two(alloc, key, place, 20, &[], list.get(), of.get()),
        Expr::Length(_, list) => one(alloc, key, place, 21, &[], list.get()),
        Expr::Sum(_, kind, list) => one(alloc, key, place, 22, &[sum_number(*kind)], list.get()),
        Expr::Call(_, function, all) => each(alloc, key, place, 23, &[*function as u64], all),
        Expr::ScopeCall(_, scope, fields, output) => {
            call(alloc, key, place, *scope, *output, fields.get())
        }
    }
}

/// A form with one part.
#[cycle(spell)]
#[tactic(auto, using(crate::proofs::KeyEquations::joins))]
fn one(
    alloc: Global,
    key: Spelling,
    place: Place,
    form: u64,
    own: &[u64],
    part: &Expr,
) -> Result<Spelling, AllocError>
    ensures { IfOk result (λ longer. longer
        ≡ key ++ (front_of form own.now 1 ++ key_of (standing place.function place.params) part.now)) }
{
    let key = with_front(alloc, key, form, own, 1)?;
    let key = with_key(alloc, key, place, part)?;
    Ok(key)
}

/// A form with two parts.
#[cycle(spell)]
#[tactic(auto, using(crate::proofs::KeyEquations::joins))]
fn two(
    alloc: Global,
    key: Spelling,
    place: Place,
    form: u64,
    own: &[u64],
    left: &Expr,
    right: &Expr,
) -> Result<Spelling, AllocError>
    ensures { IfOk result (λ longer. longer
        ≡ key ++ (front_of form own.now 2 ++ (key_of (standing place.function place.params) left.now
        ++ key_of (standing place.function place.params) right.now))) }
{
    let key = with_front(alloc, key, form, own, 2)?;
    let key = with_key(alloc, key, place, left)?;
    let key = with_key(alloc, key, place, right)?;
    Ok(key)
}

/// A form with three parts, and with no numbers of its own.
#[cycle(spell)]
#[tactic(auto, using(crate::proofs::KeyEquations::joins))]
fn three(
    alloc: Global,
    key: Spelling,
    place: Place,
    form: u64,
    first: &Expr,
    second: &Expr,
    third: &Expr,
) -> Result<Spelling, AllocError>
    ensures { IfOk result (λ longer. longer
        ≡ key ++ (front_of form [] 3 ++ (key_of (standing place.function place.params) first.now
        ++ (key_of (standing place.function place.params) second.now
        ++ key_of (standing place.function place.params) third.now)))) }
{
    let key = with_front(alloc, key, form, &[], 3)?;
    let key = with_key(alloc, key, place, first)?;
    let key = with_key(alloc, key, place, second)?;
    let key = with_key(alloc, key, place, third)?;
    Ok(key)
}

/// A form whose parts are a list.
#[cycle(spell)]
#[tactic(auto, using(crate::proofs::KeyEquations::joins))]
fn each(
    alloc: Global,
    key: Spelling,
    place: Place,
    form: u64,
    own: &[u64],
    parts: &Exprs,
) -> Result<Spelling, AllocError>
    ensures { IfOk result (λ longer. longer
        ≡ key ++ (front_of form own.now (length parts.now)
        ++ keys_of (standing place.function place.params) parts.now)) }
{
    let key = with_front(alloc, key, form, own, parts.len())?;
    let key = with_all(alloc, key, place, parts)?;
    Ok(key)
}

/// Behind a key those of some expressions.
#[cycle(spell)]
#[tactic(auto, using(crate::proofs::KeyEquations::joins))]
fn with_all(
    alloc: Global,
    key: Spelling,
    place: Place,
    parts: &Exprs,
) -> Result<Spelling, AllocError>
    ensures { IfOk result (λ longer. longer
        ≡ key ++ keys_of (standing place.function place.params) parts.now) }
{
    let mut longer = key;
    for part in parts.as_slice() {
        longer = with_key(alloc, longer, place, part)?;
    }
    Ok(longer)
}

/// Behind a key those of the values of fields.
#[cycle(spell)]
#[tactic(auto, using(crate::proofs::KeyEquations::joins))]
fn with_values(
    alloc: Global,
    key: Spelling,
    place: Place,
    fields: &FieldValues,
) -> Result<Spelling, AllocError>
    ensures { IfOk result (λ longer. longer
        ≡ key ++ value_keys (standing place.function place.params) fields.now) }
{
    let mut longer = key;
    for field in fields.as_slice() {
        longer = with_key(alloc, longer, place, &field.value)?;
    }
    Ok(longer)
}

/// Behind a key those of the bodies of arms.
#[cycle(spell)]
#[tactic(auto, using(crate::proofs::KeyEquations::joins))]
fn with_bodies(
    alloc: Global,
    key: Spelling,
    place: Place,
    arms: &Arms,
) -> Result<Spelling, AllocError>
    ensures { IfOk result (λ longer. longer
        ≡ key ++ body_keys (standing place.function place.params) arms.now) }
{
    let mut longer = key;
    for arm in arms.as_slice() {
        longer = with_key(alloc, longer, place, &arm.body)?;
    }
    Ok(longer)
}

/// A match.
#[cycle(spell)]
#[tactic(auto, using(crate::proofs::KeyEquations::joins))]
fn matched(
    alloc: Global,
    key: Spelling,
    place: Place,
    of: &Expr,
    arms: &Arms,
) -> Result<Spelling, AllocError>
    ensures { IfOk result (λ longer. longer
        ≡ key ++ (front_of 10 (patterns_in arms.now) (length arms.now + 1)
        ++ (key_of (standing place.function place.params) of.now
        ++ body_keys (standing place.function place.params) arms.now))) }
{
    // More parts than a number tells don't fit into memory.
    let Some(parts) = arms.len().checked_add(1) else {
        return Err(AllocError);
    };
    let own = patterns_in(alloc, arms)?;
    let key = with_front(alloc, key, 10, own.as_slice(), parts)?;
    let key = with_key(alloc, key, place, of)?;
    let key = with_bodies(alloc, key, place, arms)?;
    Ok(key)
}

/// A structure, or a scope call, by the number of its form and its own numbers.
#[cycle(spell)]
#[tactic(auto, using(crate::proofs::KeyEquations::joins))]
fn with_fields(
    alloc: Global,
    key: Spelling,
    place: Place,
    form: u64,
    own: &[u64],
    fields: &FieldValues,
) -> Result<Spelling, AllocError>
    ensures { IfOk result (λ longer. longer
        ≡ key ++ (front_of form own.now (length fields.now)
        ++ value_keys (standing place.function place.params) fields.now)) }
{
    let key = with_front(alloc, key, form, own, fields.len())?;
    let key = with_values(alloc, key, place, fields)?;
    Ok(key)
}

#[cycle(spell)]
#[tactic(auto, using(crate::proofs::KeyEquations::joins))]
fn structure(
    alloc: Global,
    key: Spelling,
    place: Place,
    ty: u32,
    fields: &FieldValues,
) -> Result<Spelling, AllocError>
    ensures { IfOk result (λ longer. longer
        ≡ key ++ (front_of 13 (ty ∷ fields_in fields.now) (length fields.now)
        ++ value_keys (standing place.function place.params) fields.now)) }
{
    let mut own = List::new(alloc);
    own.push(ty as u64)?;
    own.append(fields_in(alloc, fields)?)?;
    with_fields(alloc, key, place, 13, own.as_slice(), fields)
}

#[cycle(spell)]
#[tactic(auto, using(crate::proofs::KeyEquations::joins))]
fn call(
    alloc: Global,
    key: Spelling,
    place: Place,
    scope: u32,
    output: u32,
    fields: &FieldValues,
) -> Result<Spelling, AllocError>
    ensures { IfOk result (λ longer. longer
        ≡ key ++ (front_of 24 (scope ∷ output ∷ fields_in fields.now) (length fields.now)
        ++ value_keys (standing place.function place.params) fields.now)) }
{
    let mut own = List::new(alloc);
    own.push(scope as u64)?;
    own.push(output as u64)?;
    own.append(fields_in(alloc, fields)?)?;
    with_fields(alloc, key, place, 24, own.as_slice(), fields)
}

/// What arms are for.
fn patterns_in(alloc: Global, arms: &Arms) -> Result<Spelling, AllocError>
    ensures { IfOk result (λ numbers. numbers ≡ patterns_in arms.now) }
{
    let mut numbers = List::new(alloc);
    for arm in arms.as_slice() {
        let (kind, case) = pattern(arm.pattern);
        numbers.push(kind)?;
        numbers.push(case)?;
    }
    Ok(numbers)
}

/// What an arm is for.
fn pattern(pattern: ArmPattern) -> (u64, u64)
    ensures { result.0 ∷ result.1 ∷ [] ≡ pattern_numbers pattern }
{
    match pattern {
        ArmPattern::Case(case, true) => (2, case as u64),
        ArmPattern::Case(case, false) => (1, case as u64),
        ArmPattern::Anything => (0, 0),
    }
}

/// Which fields there are, in written order.
fn fields_in(alloc: Global, fields: &FieldValues) -> Result<Spelling, AllocError>
    ensures { IfOk result (λ numbers. numbers ≡ fields_in fields.now) }
{
    let mut numbers = List::new(alloc);
    for field in fields.as_slice() {
        numbers.push(field.field as u64)?;
    }
    Ok(numbers)
}
