// The types of a program.
ghost use Rattle.std.specs.Prelude.{◌≡◌, ◌↔◌, IfOk, IsTrue};

use cat_pos::{Boxed, List};
use std::alloc::{AllocError, Global};

/// A type. A structure and an enumeration are named by their numbers in the declarations.
#[derive(Debug, Drop)]
pub enum Ty {
    Boolean,
    Integer,
    Decimal,
    Money,
    Date,
    Duration,
    List(Boxed<Ty>),
    Structure(u32),
    Enumeration(u32),
}

pub type Tys = List<Ty>;

pub fn copy_ty(alloc: Global, ty: &Ty) -> Result<Ty, AllocError>
    ensures { IfOk result (λ copied. copied ≡ ty.now) }
{
    match ty {
        Ty::Boolean => Ok(Ty::Boolean),
        Ty::Integer => Ok(Ty::Integer),
        Ty::Decimal => Ok(Ty::Decimal),
        Ty::Money => Ok(Ty::Money),
        Ty::Date => Ok(Ty::Date),
        Ty::Duration => Ok(Ty::Duration),
        Ty::List(element) => {
            let element = copy_ty(alloc, element.get())?;
            Ok(Ty::List(Boxed::new(alloc, element)?))
        }
        Ty::Structure(structure) => Ok(Ty::Structure(*structure)),
        Ty::Enumeration(enumeration) => Ok(Ty::Enumeration(*enumeration)),
    }
}

pub fn same_ty(left: &Ty, right: &Ty) -> bool
    ensures { IsTrue result ↔ (left.now ≡ right.now) }
{
    match (left, right) {
        (Ty::Boolean, Ty::Boolean) => true,
        (Ty::Integer, Ty::Integer) => true,
        (Ty::Decimal, Ty::Decimal) => true,
        (Ty::Money, Ty::Money) => true,
        (Ty::Date, Ty::Date) => true,
        (Ty::Duration, Ty::Duration) => true,
        (Ty::List(left), Ty::List(right)) => same_ty(left.get(), right.get()),
        (Ty::Structure(left), Ty::Structure(right)) => left == right,
        (Ty::Enumeration(left), Ty::Enumeration(right)) => left == right,
        _ => false,
    }
}
