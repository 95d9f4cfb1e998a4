// The values that a program computes with.
ghost use Rattle.std.specs.Prelude.{◌≡◌, IfOk};

use cat_date::{Day, Span};
use cat_num::{Frac, Money, Whole};
use cat_pos::{Boxed, List};
use std::alloc::{AllocError, Global};

/// A value. A structure has its fields' values in the order of their declarations; a case has its number in its
/// enumeration and its content.
#[derive(Debug, Drop)]
pub enum Value {
    Boolean(bool),
    Integer(Whole),
    Decimal(Frac),
    Money(Money),
    Date(Day),
    Duration(Span),
    List(Values),
    Structure(Values),
    Case(u32, Option<Boxed<Value>>),
}

pub type Values = List<Value>;

/// The same value in memory of its own.
#[cycle(copy)]
pub fn copy(alloc: Global, value: &Value) -> Result<Value, AllocError>
    ensures { IfOk result (λ copied. copied ≡ value.now) }
{
    match value {
        Value::Boolean(truth) => Ok(Value::Boolean(*truth)),
        Value::Integer(whole) => Ok(Value::Integer(*whole)),
        Value::Decimal(frac) => Ok(Value::Decimal(*frac)),
        Value::Money(money) => Ok(Value::Money(*money)),
        Value::Date(day) => Ok(Value::Date(*day)),
        Value::Duration(span) => Ok(Value::Duration(*span)),
        Value::List(elements) => {
            let elements = copy_all(alloc, elements)?;
            Ok(Value::List(elements))
        }
        Value::Structure(fields) => {
            let fields = copy_all(alloc, fields)?;
            Ok(Value::Structure(fields))
        }
        Value::Case(case, None) => Ok(Value::Case(*case, None)),
        Value::Case(case, Some(content)) => {
            let content = copy(alloc, content.get())?;
            let content = Boxed::new(alloc, content)?;
            Ok(Value::Case(*case, Some(content)))
        }
    }
}

/// The same values in memory of their own.
#[cycle(copy)]
pub fn copy_all(alloc: Global, values: &Values) -> Result<Values, AllocError>
    ensures { IfOk result (λ copied. copied ≡ values.now) }
{
    let mut copies = List::new(alloc);
    for value in values.as_slice() {
        copies.push(copy(alloc, value)?)?;
    }
    Ok(copies)
}
