// Each call once: a value of a type, and an input and outcomes of a scope without items.
ghost use Rattle.std.specs.Prelude.{◌≡◌, [], ◌∷◌, IfOk};

use crate::{answer_text, input_text, value_text};
use cat_date::Span;
use cat_pos::{Boxed, Files, List, Pos, Text};
use cat_value::{Decls, FaultKind, Outcome, Scope, Ty, Value};
use std::alloc::{AllocError, Global};
use std::test::Fail;

/// A scope without items.
#[tactic(auto, using(crate::proofs::Samples::bare_sound))]
fn decls(alloc: Global, name: &str) -> Result<Decls, AllocError>
    ensures { IfOk result (λ decls. decls.scopes ≡ record { name = name.now; items = [] } ∷ []) }
{
    let mut scopes = List::new(alloc);
    scopes.push(Scope {
        name: Text::from_str(alloc, name)?,
        items: List::new(alloc),
    })?;
    Ok(Decls::from_parts(List::new(alloc), List::new(alloc), scopes))
}

#[test]
fn a_duration_is_written_with_its_keys_in_byte_order(rt: HostRuntime) -> Result<(), Fail> {
    let alloc = rt.alloc();
    let decls = decls(alloc, "S")?;
    let mut durations = List::new(alloc);
    durations.push(Value::Duration(Span::from_parts(14, -3)))?;
    let ty = Ty::List(Boxed::new(alloc, Ty::Duration)?);
    let text = value_text(alloc, &Value::List(durations), &ty, &decls)?;
    assert_eq!(rt; text.as_str(), "[{\"days\":-3,\"months\":14}]");
    Ok(())
}

#[test]
fn an_input_without_variables_is_an_object(rt: HostRuntime) -> Result<(), Fail> {
    let alloc = rt.alloc();
    let decls = decls(alloc, "S")?;
    let text = input_text(alloc, &List::new(alloc), &decls, 0)?;
    assert_eq!(rt; text.as_str(), "{}");
    Ok(())
}

#[test]
fn outcomes_are_told(rt: HostRuntime) -> Result<(), Fail> {
    let alloc = rt.alloc();
    let decls = decls(alloc, "S")?;
    let mut files = Files::new(alloc);
    files.add("a.md")?;
    let place = Pos::new(0, 5, 3);
    let fault = Outcome::Fault(FaultKind::DivisionByZero, place);
    let text = answer_text(alloc, &fault, &decls, 0, &files)?;
    assert_eq!(rt; text.as_str(), "fault DivisionByZero at a.md:5:3");
    let text = answer_text(alloc, &Outcome::Value(List::new(alloc)), &decls, 0, &files)?;
    assert_eq!(rt; text.as_str(), "{}");
    Ok(())
}
