//! Definitions of the variables `x` and `y`, as a line of the tables spells them: `label a exception b definition x`,
//! parted by `; `. Each stands in a line of its own of the source.
ghost use Rattle.std.specs.Prelude.{◌<◌, IfOk};
ghost use Rattle.cat_scope.specs.Names.{AllHave};
ghost use Rattle.cat_rows_data.specs.inside.Plain.{IsPlain};

use cat_pos::{COLUMNS_BOUND, List, Pos, Shared, Text};
use cat_rows::Problem;
use cat_scope::{Def, Defs, Except, Expr, Label, Literal};
use cat_value::Target;
use std::alloc::Global;

/// A definition's line, and what is not read of it yet.
#[derive(Clone, Copy)]
struct Line<'a> {
    number: u32,
    text: &'a str,
    rest: &'a str,
}

impl<'a> Line<'a> {
    /// The position of what is not read yet.
    fn pos(self) -> Result<Pos, Problem> {
        let read = self.text.len().saturating_sub(self.rest.len());
        let column = u32::try_from(read).ok().ok_or(Problem::Unreadable)?;
        if column >= COLUMNS_BOUND - 1 {
            return Err(Problem::Unreadable);
        }
        Ok(Pos::new(0, self.number, column + 1))
    }

    /// The line behind a word, where the word stands next.
    fn behind(self, word: &str) -> Option<Line<'a>> {
        let rest = self.rest.strip_prefix(word)?;
        Some(Line { rest, ..self })
    }

    /// The next word as a label, and the line behind it.
    fn label(self, alloc: Global) -> Result<(Label, Line<'a>), Problem> {
        let (name, rest) = self.rest.split_once(' ').ok_or(Problem::Unreadable)?;
        let label = Label {
            text: Text::from_str(alloc, name)?,
            pos: self.pos()?,
        };
        Ok((label, Line { rest, ..self }))
    }
}

/// The label of a definition, where it has one.
fn own_label<'a>(alloc: Global, line: Line<'a>) -> Result<(Option<Label>, Line<'a>), Problem> {
    match line.behind("label ") {
        Some(line) => {
            let (label, line) = line.label(alloc)?;
            Ok((Some(label), line))
        }
        None => Ok((None, line)),
    }
}

/// What a definition is an exception to.
fn exception<'a>(alloc: Global, line: Line<'a>) -> Result<(Except, Line<'a>), Problem> {
    let pos = line.pos()?;
    match line.behind("exception ") {
        None => Ok((Except::No, line)),
        Some(line) => {
            if line.behind("definition ").is_some() {
                return Ok((Except::OnlyRoot(pos), line));
            }
            let (label, line) = line.label(alloc)?;
            Ok((Except::Named(pos, label), line))
        }
    }
}

/// The number of the variable that is defined.
fn variable(line: Line<'_>) -> Result<u32, Problem>
    ensures { IfOk result (λ item. item < 2) }
{
    if line.rest == "definition x" {
        return Ok(0);
    }
    if line.rest == "definition y" {
        return Ok(1);
    }
    Err(Problem::Unreadable)
}

#[tactic(auto, using(crate::proofs::PlainProgram::made_plain))]
fn definition(alloc: Global, line: Line<'_>) -> Result<Def, Problem>
    ensures { IfOk result IsPlain }
{
    let (label, line) = own_label(alloc, line)?;
    let (except, line) = exception(alloc, line)?;
    let pos = line.pos()?;
    let target = Target {
        scope: 0,
        item: variable(line)?,
        inner: None,
    };
    Ok(Def {
        target,
        label,
        except,
        condition: None,
        consequence: Shared::new(alloc, Expr::Literal(pos, Literal::Boolean(true)))?,
        params: 0,
        pos,
    })
}

/// The definitions of a line of the tables.
#[tactic(auto, using(crate::proofs::PlainProgram::plain_more))]
pub(crate) fn definitions(alloc: Global, text: &str) -> Result<Defs, Problem>
    ensures { IfOk result (AllHave IsPlain) }
{
    let mut defs = List::new(alloc);
    let mut number: u32 = 0;
    for text in text.split("; ") {
        number = number.saturating_add(1);
        let line = Line {
            number,
            text,
            rest: text,
        };
        defs.push(definition(alloc, line)?)?;
    }
    Ok(defs)
}
