//! Calls that narrow a region, and that ask it.
ghost use Rattle.std.specs.Prelude.{◌≡◌, IfOk, IsTrue};
ghost use Rattle.cat_region.specs.Regions.{is_cut_at};

use crate::shown::{show_cut, show_point};
use crate::spelling::{are_dims, cut, dims, is_cut};
use cat_region::{Cut, Dim, Region};
use cat_rows::{Arguments, Problem, add};
use std::alloc::Global;

#[derive(Clone, Copy)]
enum Call {
    Narrow,
    Restore,
    Last,
    Decided,
    Empty,
    Room,
    Point,
}

const CALLS: [(&str, Call); 7] = [
    ("narrow", Call::Narrow),
    ("restore", Call::Restore),
    ("last", Call::Last),
    ("decided", Call::Decided),
    ("empty", Call::Empty),
    ("room", Call::Room),
    ("point", Call::Point),
];

const SIDES: [(&str, bool); 2] = [("yes", true), ("no", false)];

/// What the questions of a line are answered, in order.
pub fn region_answer(alloc: Global, given: &mut Arguments<'_>) -> Result<String, Problem> {
    let depth = given.count()?;
    let dims = dims(alloc, given)?;
    if !are_dims(&dims) {
        return Err(Problem::Unreadable);
    }
    let mut region = Region::new(alloc, &dims, depth as usize)?;
    answers(alloc, &dims, &mut region, given)
}

fn answers(
    alloc: Global,
    dims: &[Dim],
    region: &mut Region,
    given: &mut Arguments<'_>,
) -> Result<String, Problem>
    requires { region.old.dims ≡ dims.now }
{
    let mut answers = String::new(alloc);
    for _ in 0..given.rest().len() {
        if given.rest().is_empty() {
            break;
        }
        let answer = step(alloc, dims, region, given)?;
        if !answer.is_empty() {
            add(&mut answers, ", ", answer.as_str())?;
        }
    }
    Ok(answers)
}

/// The answer of the next call, which is empty for one that asks nothing.
fn step(
    alloc: Global,
    dims: &[Dim],
    region: &mut Region,
    given: &mut Arguments<'_>,
) -> Result<String, Problem>
    requires { region.old.dims ≡ dims.now }
    ensures { region.new.dims ≡ dims.now }
{
    match given.choice(&CALLS)? {
        Call::Narrow => narrow(dims, region, given)?,
        Call::Restore => restore(region)?,
        call => return ask(alloc, call, dims, region, given),
    }
    Ok(String::new(alloc))
}

/// A cut of the dimension of that number.
fn cut_at(dims: &[Dim], at: usize, given: &mut Arguments<'_>) -> Result<Cut, Problem>
    ensures { IfOk result (λ cut. IsTrue (is_cut_at dims.now at cut)) }
{
    let dim = dims.get(at).ok_or(Problem::Unreadable)?;
    let cut = cut(dim, given)?;
    if is_cut(dim, &cut) {
        Ok(cut)
    } else {
        Err(Problem::Unreadable)
    }
}

fn narrow(dims: &[Dim], region: &mut Region, given: &mut Arguments<'_>) -> Result<(), Problem>
    requires { region.old.dims ≡ dims.now }
    ensures { region.new.dims ≡ dims.now }
{
    let dim = given.count()? as usize;
    let Ok(cut) = cut_at(dims, dim, given) else {
        return Err(Problem::Unreadable);
    };
    let yes = given.choice(&SIDES)?;
    if region.room() == 0 {
        return Err(Problem::Unreadable);
    }
    region.narrow(dim, &cut, yes);
    Ok(())
}

fn restore(region: &mut Region) -> Result<(), Problem>
    ensures { region.new.dims ≡ region.old.dims }
{
    if region.last().is_none() {
        return Err(Problem::Unreadable);
    }
    region.restore();
    Ok(())
}

fn ask(
    alloc: Global,
    call: Call,
    dims: &[Dim],
    region: &Region,
    given: &mut Arguments<'_>,
) -> Result<String, Problem>
    requires { region.now.dims ≡ dims.now }
{
    match call {
        Call::Last => last(alloc, region),
        Call::Decided => decided(alloc, dims, region, given),
        Call::Point => point(alloc, region, dims, given),
        Call::Empty => {
            let empty = region.is_empty();
            Ok(format!(in alloc; "{empty}")?)
        }
        _ => {
            let room = region.room();
            Ok(format!(in alloc; "{room}")?)
        }
    }
}

/// The dimension, the cut and the side of the last narrowing.
fn last(alloc: Global, region: &Region) -> Result<String, Problem> {
    match region.last() {
        None => Ok(String::from_str(alloc, "none")?),
        Some((dim, cut, yes)) => {
            let cut = show_cut(alloc, cut)?;
            let side = if yes { "yes" } else { "no" };
            Ok(format!(in alloc; "{dim} {cut} {side}")?)
        }
    }
}

fn decided(
    alloc: Global,
    dims: &[Dim],
    region: &Region,
    given: &mut Arguments<'_>,
) -> Result<String, Problem>
    requires { region.now.dims ≡ dims.now }
{
    let dim = given.count()? as usize;
    let Ok(cut) = cut_at(dims, dim, given) else {
        return Err(Problem::Unreadable);
    };
    let answer = match region.decided(dim, &cut) {
        Some(true) => "yes",
        Some(false) => "no",
        None => "open",
    };
    Ok(String::from_str(alloc, answer)?)
}

fn point(
    alloc: Global,
    region: &Region,
    dims: &[Dim],
    given: &mut Arguments<'_>,
) -> Result<String, Problem>
    requires { region.now.dims ≡ dims.now }
{
    let dim = given.count()? as usize;
    if dim >= dims.len() || region.is_empty() {
        return Err(Problem::Unreadable);
    }
    Ok(show_point(alloc, region.point(dim))?)
}
