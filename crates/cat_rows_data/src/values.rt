//! Values as short texts: `5`, `1/2` for a decimal, `250c` for an amount in cents, `day 0` for 1970-01-01, `2m 1d` for
//! a duration, `[..]` for a list, `(..)` for a structure, and `#1 ..` for a case by its number.

use cat_date::number;
use cat_rows::add;
use cat_value::{Input, Value, Values};
use std::alloc::{AllocError, Global};

type Written = Result<String, AllocError>;

#[cycle(show)]
pub fn show(alloc: Global, value: &Value) -> Written {
    match value {
        Value::Boolean(truth) => format!(in alloc; "{truth}"),
        Value::Integer(whole) => format!(in alloc; "{}", whole.get()),
        Value::Decimal(frac) => format!(in alloc; "{}/{}", frac.num(), frac.den()),
        Value::Money(money) => format!(in alloc; "{}c", money.get()),
        Value::Date(day) => format!(in alloc; "day {}", number(*day)),
        Value::Duration(span) => format!(in alloc; "{}m {}d", span.months(), span.days()),
        Value::List(elements) => {
            let elements = show_all(alloc, elements)?;
            format!(in alloc; "[{elements}]")
        }
        Value::Structure(fields) => {
            let fields = show_all(alloc, fields)?;
            format!(in alloc; "({fields})")
        }
        Value::Case(case, None) => format!(in alloc; "#{case}"),
        Value::Case(case, Some(content)) => {
            let content = show(alloc, content.get())?;
            format!(in alloc; "#{case} {content}")
        }
    }
}

#[cycle(show)]
fn show_all(alloc: Global, values: &Values) -> Written {
    let mut text = String::new(alloc);
    for value in values.as_slice() {
        add(&mut text, ", ", show(alloc, value)?.as_str())?;
    }
    Ok(text)
}

/// The values of the items with `|` between, and `-` where an item has none.
pub fn show_input(alloc: Global, input: &Input) -> Written {
    let mut text = String::new(alloc);
    for value in input.as_slice() {
        add(&mut text, " | ", show_given(alloc, value)?.as_str())?;
    }
    Ok(text)
}

fn show_given(alloc: Global, value: &Option<Value>) -> Written {
    match value {
        Some(value) => show(alloc, value),
        None => String::from_str(alloc, "-"),
    }
}
