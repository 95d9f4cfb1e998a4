// Guards over guards.
ghost use Rattle.std.specs.Prelude.{◌≡◌, IfOk};
ghost use Rattle.cat_guard.specs.declared.guard.Guard.TheViews as guard;

use cat_guard::Guard;
use cat_pos::Boxed;
use std::alloc::{AllocError, Global};

/// The opposite of a guard.
pub fn negation(alloc: Global, inner: Guard) -> Result<Guard, AllocError>
    ensures { IfOk result (λ outer. outer ≡ guard.Not inner) }
{
    Ok(Guard::Not(Boxed::new(alloc, inner)?))
}

/// Both of two guards.
pub fn conjunction(alloc: Global, left: Guard, right: Guard) -> Result<Guard, AllocError>
    ensures { IfOk result (λ outer. outer ≡ guard.Both left right) }
{
    let left = Boxed::new(alloc, left)?;
    let right = Boxed::new(alloc, right)?;
    Ok(Guard::Both(left, right))
}

/// One of two guards, or both.
pub fn disjunction(alloc: Global, left: Guard, right: Guard) -> Result<Guard, AllocError>
    ensures { IfOk result (λ outer. outer ≡ guard.Either left right) }
{
    let left = Boxed::new(alloc, left)?;
    let right = Boxed::new(alloc, right)?;
    Ok(Guard::Either(left, right))
}

/// One of two guards, and not the other.
pub fn difference(alloc: Global, left: Guard, right: Guard) -> Result<Guard, AllocError>
    ensures { IfOk result (λ outer. outer ≡ guard.Differ left right) }
{
    let left = Boxed::new(alloc, left)?;
    let right = Boxed::new(alloc, right)?;
    Ok(Guard::Differ(left, right))
}

/// The second of three guards where the first is true, and else the third.
pub fn selection(alloc: Global, test: Guard, yes: Guard, no: Guard) -> Result<Guard, AllocError>
    ensures { IfOk result (λ outer. outer ≡ guard.Choice test yes no) }
{
    let test = Boxed::new(alloc, test)?;
    let yes = Boxed::new(alloc, yes)?;
    let no = Boxed::new(alloc, no)?;
    Ok(Guard::Choice(test, yes, no))
}
