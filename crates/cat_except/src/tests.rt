// Forests of definitions, and why there is none.
ghost use Rattle.std.specs.Prelude.{◌<◌};

use crate::{ExceptRefusal, forest_of};
use cat_pos::{COLUMNS_BOUND, List, Pos, Shared, Text};
use cat_scope::{Def, Defs, Except, Expr, Label};
use cat_value::Target;
use std::alloc::{AllocError, Global};
use std::process::Abort;
use std::test::Fail;

const X: Target = Target {
    scope: 0,
    item: 0,
    inner: None,
};

fn at(line: u32, column: u32) -> Pos
    requires { column < COLUMNS_BOUND }
{
    Pos::new(0, line, column)
}

/// A label of so many letters.
fn label(alloc: Global, letters: u32, pos: Pos) -> Result<Label, AllocError> {
    let mut text = String::new(alloc);
    for _ in 0..letters {
        text.push('a')?;
    }
    Ok(Label {
        text: Text::from_string(alloc, text)?,
        pos,
    })
}

fn def(alloc: Global, label: Option<Label>, except: Except) -> Result<Def, AllocError> {
    Ok(Def {
        target: X,
        label,
        except,
        condition: None,
        consequence: Shared::new(alloc, Expr::Item(at(0, 0), 0))?,
        params: 0,
        pos: at(0, 0),
    })
}

/// `label L definition x`
fn plain(alloc: Global, own: u32, line: u32) -> Result<Def, AllocError> {
    def(alloc, Some(label(alloc, own, at(line, 9))?), Except::No)
}

/// `label L exception M definition x`
fn exception(alloc: Global, own: u32, other: u32, line: u32) -> Result<Def, AllocError> {
    let excepted = label(alloc, other, at(line, 21))?;
    let except = Except::Named(at(line, 11), excepted);
    def(alloc, Some(label(alloc, own, at(line, 9))?), except)
}

fn refused(rt: &impl Abort, alloc: Global, defs: &[Def]) -> Option<ExceptRefusal> {
    assert!(rt; defs.len() < 1000);
    forest_of(alloc, defs, &[X]).err()
}

#[test]
fn labels_and_exceptions_are_refused(rt: HostRuntime) -> Result<(), Fail> {
    let alloc = rt.alloc();
    let except = Except::Named(at(6, 3), label(alloc, 1, at(6, 13))?);
    let unknown = def(alloc, None, except)?;
    let refusal = refused(&rt, alloc, &[unknown]);
    assert!(rt; refusal == Some(ExceptRefusal::LabelUnknown(at(6, 13))));
    let refusal = refused(&rt, alloc, &[def(alloc, None, Except::OnlyRoot(at(6, 3)))?]);
    assert!(rt; refusal == Some(ExceptRefusal::ExceptionAmbiguous(at(6, 3))));
    Ok(())
}

#[test]
fn a_label_has_one_exception_part(rt: HostRuntime) -> Result<(), Fail> {
    let alloc = rt.alloc();
    let mut defs = List::new(alloc);
    defs.push(plain(alloc, 1, 6)?)?;
    defs.push(plain(alloc, 2, 7)?)?;
    defs.push(exception(alloc, 3, 1, 8)?)?;
    defs.push(exception(alloc, 3, 2, 9)?)?;
    let refusal = refused(&rt, alloc, defs.as_slice());
    assert!(rt; refusal == Some(ExceptRefusal::LabelSplit(at(9, 9))));
    Ok(())
}

#[test]
fn no_group_excepts_itself_through_another(rt: HostRuntime) -> Result<(), Fail> {
    let alloc = rt.alloc();
    let mut defs = List::new(alloc);
    defs.push(exception(alloc, 1, 2, 6)?)?;
    defs.push(exception(alloc, 2, 1, 7)?)?;
    match refused(&rt, alloc, defs.as_slice()) {
        Some(ExceptRefusal::ExceptionCycle(pos)) => {
            assert!(rt; pos == at(6, 11) || pos == at(7, 11));
        }
        _ => assert!(rt; false),
    }
    Ok(())
}

/// A chain of so many groups, in lines from 1 on.
fn chain(alloc: Global, groups: u32) -> Result<Defs, AllocError> {
    let mut defs = List::new(alloc);
    defs.push(plain(alloc, 1, 1)?)?;
    for line in 1..groups {
        defs.push(exception(alloc, line + 1, line, line + 1)?)?;
    }
    Ok(defs)
}

#[test]
fn a_chain_has_at_most_256_groups(rt: HostRuntime) -> Result<(), Fail> {
    let alloc = rt.alloc();
    let refusal = refused(&rt, alloc, chain(alloc, 256)?.as_slice());
    assert!(rt; refusal.is_none());
    let refusal = refused(&rt, alloc, chain(alloc, 257)?.as_slice());
    assert!(rt; refusal == Some(ExceptRefusal::TooMany(at(257, 11))));
    Ok(())
}

#[test]
fn a_chain_makes_a_forest(rt: HostRuntime) -> Result<(), Fail> {
    let alloc = rt.alloc();
    let defs = chain(alloc, 3)?;
    assert!(rt; defs.len() < 1000);
    let Ok(forest) = forest_of(alloc, defs.as_slice(), &[X]) else {
        panic!(rt; "refused");
    };
    assert!(rt; forest.targets.len() == 1);
    let groups = &forest.targets.at(0).groups;
    assert!(rt; groups.len() == 3);
    assert!(rt; groups.at(0).excepted_by.as_slice() == [1].as_slice());
    assert!(rt; groups.at(1).excepted_by.as_slice() == [2].as_slice());
    assert!(rt; groups.at(2).defs.as_slice() == [2].as_slice());
    Ok(())
}
