//! What stands in front of the parts of a node: its form, its own words, and its position.

use crate::writer::{WriteResult, Writer};
use cat_date::number;
use cat_num::DecimalLiteral;
use cat_pos::Pos;
use cat_tree::{Accumulation, Base, CaseName, Name, Node, Pattern, SurfaceLiteral, Type};
use std::fmt::Debug;

pub fn front(out: &mut Writer, node: &Node) -> WriteResult {
    match node {
        Node::Literal(literal, pos) => literal_front(out, literal, *pos),
        Node::Name(name) => name_front(out, "(", name),
        Node::Case(case) => case_front(out, "Case(", case),
        Node::Parens(pos, _) => form_front(out, "Parens(", *pos),
        Node::Field(_, name) => name_front(out, "Field(", name),
        Node::Prefixed(prefix, pos, _) => value_front(out, prefix, *pos),
        Node::Sum(pos, ty, _) => sum_front(out, *pos, ty.get()),
        Node::Content(case, _) => case_front(out, "Content(", case),
        Node::Call(name, _) => name_front(out, "Call(", name.get()),
        Node::Binary(operator, pos, _, _) => value_front(out, operator, *pos),
        Node::Test(_, pos, case) => test_front(out, *pos, case.get()),
        Node::List(pos, _) => form_front(out, "List(", *pos),
        Node::Structure(name, _) => name_front(out, "Structure(", name.get()),
        Node::ScopeCall(pos, scope, _, output) => names_front(
            out,
            "ScopeCall(",
            *pos,
            scope.get(),
            output.get(),
        ),
        Node::If(pos, _, _, _) => form_front(out, "If(", *pos),
        Node::Match(pos, _, _) => form_front(out, "Match(", *pos),
        Node::Each(form, pos, name, _, _) => each_front(out, form, *pos, name.get()),
        Node::Combine(words, _, _, _) => combine_front(out, words.get()),
    }
}

fn combine_front(out: &mut Writer, words: &Accumulation) -> WriteResult {
    names_front(out, "Combine(", words.pos, &words.element, &words.sum)
}

fn form_front(out: &mut Writer, form: &str, pos: Pos) -> WriteResult {
    out.word(form)?;
    out.at(pos)
}

fn value_front<T: Debug>(out: &mut Writer, form: &T, pos: Pos) -> WriteResult {
    out.word("(")?;
    out.value(form)?;
    out.at(pos)
}

fn name_front(out: &mut Writer, form: &str, name: &Name) -> WriteResult {
    out.word(form)?;
    write_name(out, name)
}

fn names_front(out: &mut Writer, form: &str, pos: Pos, one: &Name, two: &Name) -> WriteResult {
    name_front(out, form, one)?;
    write_name(out, two)?;
    out.at(pos)
}

fn each_front<T: Debug>(out: &mut Writer, form: &T, pos: Pos, name: &Name) -> WriteResult {
    out.word("(")?;
    out.value(form)?;
    write_name(out, name)?;
    out.at(pos)
}

fn case_front(out: &mut Writer, form: &str, case: &CaseName) -> WriteResult {
    out.word(form)?;
    write_case(out, case)
}

fn test_front(out: &mut Writer, pos: Pos, case: &CaseName) -> WriteResult {
    case_front(out, "Test(", case)?;
    out.at(pos)
}

fn sum_front(out: &mut Writer, pos: Pos, ty: &Type) -> WriteResult {
    out.word("Sum(")?;
    out.value(&ty.lists)?;
    write_base(out, &ty.base)?;
    out.mark_at(ty.pos)?;
    out.at(pos)
}

fn literal_front(out: &mut Writer, literal: &SurfaceLiteral, pos: Pos) -> WriteResult {
    out.word("(")?;
    write_literal(out, literal)?;
    out.at(pos)
}

pub fn write_name(out: &mut Writer, name: &Name) -> WriteResult {
    out.word(name.text.as_str())?;
    out.mark_at(name.pos)
}

fn write_case(out: &mut Writer, case: &CaseName) -> WriteResult {
    match case {
        CaseName::Bare(name) => name_front(out, "Bare(", name)?,
        CaseName::Qualified(owner, name) => {
            name_front(out, "Qualified(", owner.get())?;
            write_name(out, name.get())?;
        }
    }
    out.mark(")")
}

pub fn write_pattern(out: &mut Writer, pattern: &Pattern) -> WriteResult {
    match pattern {
        Pattern::Anything => out.word("Anything"),
        Pattern::Case(case, name) => {
            case_front(out, "Case(", case)?;
            write_bound(out, name)?;
            out.mark(")")
        }
    }
}

/// The name that a pattern gives to the content of its case.
fn write_bound(out: &mut Writer, name: &Option<Name>) -> WriteResult {
    match name {
        None => out.word("None"),
        Some(name) => {
            name_front(out, "Some(", name)?;
            out.mark(")")
        }
    }
}

fn write_base(out: &mut Writer, base: &Base) -> WriteResult {
    match base {
        Base::Named(name) => write_with(out, "Named(", name.as_str()),
        other => out.value(other),
    }
}

fn write_literal(out: &mut Writer, literal: &SurfaceLiteral) -> WriteResult {
    match literal {
        SurfaceLiteral::Int(whole) => write_value(out, "Int(", &whole.get()),
        SurfaceLiteral::Dec(decimal) => write_decimal(out, "Dec(", *decimal),
        SurfaceLiteral::Pct(decimal) => write_decimal(out, "Pct(", *decimal),
        SurfaceLiteral::Money(money) => write_value(out, "Money(", &money.get()),
        SurfaceLiteral::Date(day) => write_value(out, "Date(", &number(*day)),
        SurfaceLiteral::Boolean(truth) => write_value(out, "Boolean(", truth),
        SurfaceLiteral::Span(count, unit) => write_values(out, "Span(", &count.get(), unit),
    }
}

fn write_decimal(out: &mut Writer, form: &str, decimal: DecimalLiteral) -> WriteResult {
    write_values(out, form, &decimal.digits(), &decimal.places())
}

fn write_values<T: Debug, U: Debug>(out: &mut Writer, form: &str, one: &T, two: &U) -> WriteResult {
    out.word(form)?;
    out.value(one)?;
    out.value(two)?;
    out.mark(")")
}

fn write_value<T: Debug>(out: &mut Writer, form: &str, value: &T) -> WriteResult {
    out.word(form)?;
    out.value(value)?;
    out.mark(")")
}

fn write_with(out: &mut Writer, form: &str, word: &str) -> WriteResult {
    out.word(form)?;
    out.word(word)?;
    out.mark(")")
}
