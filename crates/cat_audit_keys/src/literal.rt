// The keys of literals, of local names and of operators.
ghost use Rattle.std.specs.Prelude.{◌≡◌, ◌++◌, IfOk};
ghost use Rattle.cat_audit_keys.specs.Keys.{literal_numbers, local_numbers, sign_number, truth_number};
ghost use Rattle.cat_audit_keys.specs.inside.Fronts.{front_of};
ghost use Rattle.cat_audit_keys.specs.Standings.{standing};

use crate::form::{Spelling, with_front};
use cat_date::number;
use cat_scope::Literal;
use std::alloc::{AllocError, Global};

fn truth(truth: bool) -> u64
    ensures { result ≡ truth_number truth }
{
    if truth { 1 } else { 0 }
}

pub fn sign(number: i64) -> u64
    ensures { result ≡ sign_number number }
{
    if number < 0 { 1 } else { 0 }
}

/// Behind a key that of a literal.
pub fn with_literal(alloc: Global, key: Spelling, literal: Literal) -> Result<Spelling, AllocError>
    ensures { IfOk result (λ longer. longer ≡ key ++ front_of 0 (literal_numbers literal) 0) }
{
    match literal {
        Literal::Boolean(value) => with_front(alloc, key, 0, &[0, truth(value)], 0),
        Literal::Integer(whole) => {
            let n = whole.get();
            with_front(alloc, key, 0, &[1, sign(n), n.unsigned_abs()], 0)
        }
        Literal::Decimal(decimal) => {
            with_front(
                alloc,
                key,
                0,
                &[2, decimal.digits(), decimal.places() as u64],
                0,
            )
        }
        Literal::Money(money) => {
            let n = money.get();
            with_front(alloc, key, 0, &[3, sign(n), n.unsigned_abs()], 0)
        }
        Literal::Date(day) => {
            let n = number(day);
            with_front(alloc, key, 0, &[4, sign(n), n.unsigned_abs()], 0)
        }
        Literal::Duration(span) => {
            let (months, days) = (span.months(), span.days());
            let own = [
                5,
                sign(months),
                months.unsigned_abs(),
                sign(days),
                days.unsigned_abs(),
            ];
            with_front(alloc, key, 0, &own, 0)
        }
    }
}

/// Behind a key that of a local name: a parameter with its function, or how many binders stand in front of a name that
/// is bound inside.
pub fn with_local(
    alloc: Global,
    key: Spelling,
    function: u32,
    params: u32,
    local: u32,
) -> Result<Spelling, AllocError>
    ensures { IfOk result (λ longer. longer ≡ key ++ front_of 3 (local_numbers (standing function params) local) 0) }
{
    if local < params {
        return with_front(alloc, key, 3, &[0, function as u64, local as u64], 0);
    }
    with_front(alloc, key, 3, &[1, 0, (local - params) as u64], 0)
}
