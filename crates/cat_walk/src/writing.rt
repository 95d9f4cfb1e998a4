// Trees written by the classes of their subtrees.
ghost use Rattle.std.specs.Prelude.{◌≡◌, ◌<◌, if◌then◌else◌, List as Listed, [], ◌∷◌, map, length, slice_get, Some};
ghost use Rattle.std.specs.Prelude.{None};
ghost use Rattle.std.specs.Prelude.{IfOk, OnOk};
ghost use Rattle.cat_guard.specs.Trees.{Tree};
ghost use Rattle.cat_walk.specs.Sharing.{body, written};
ghost use Rattle.cat_walk.specs.inside.Classes.{class_in};
ghost use Rattle.cat_walk.specs.inside.Writing.{numbers_from, picked, CanWrite, Knows, Writes};

use crate::classes::{Classes, LEAF};
use cat_guard::{CitedNames, CitedNode, CitedNodes};
use cat_pos::{List, Stack};
use std::alloc::{AllocError, Global};

/// The number where a flag is set.
fn number_if(flag: bool, number: usize) -> Option<usize>
    ensures { result ≡ if flag then Some number else None }
{
    if flag { Some(number) } else { None }
}

/// The number of the name of each class, where it recurs.
pub(crate) fn name_numbers(
    alloc: Global,
    recurs: &[bool],
) -> Result<List<Option<usize>>, AllocError>
    ensures { IfOk result (λ numbers. numbers ≡ numbers_from 0 recurs.now) }
{
    let mut numbers = List::new(alloc);
    let mut next = 0;
    for &again in recurs {
        numbers.push(number_if(again, next))?;
        next += again as usize;
    }
    Ok(numbers)
}

/// Writes trees of these classes: a citation where a class has a name, and else its split and then its sides.
fn write(
    classes: &Classes,
    numbers: &[Option<usize>],
    left_over: &mut Stack<usize>,
    nodes: &mut CitedNodes,
) -> Result<(), AllocError>
    requires { CanWrite classes.now.splits.keys numbers.now left_over.old }
    ensures { OnOk result (Writes classes.now.splits.keys numbers.now left_over.old nodes.old nodes.new) }
{
    while let Some(class) = left_over.pop() {
        if class == LEAF {
            nodes.push(CitedNode::Leaf)?;
            continue;
        }
        if let Some(name) = numbers[class - 1] {
            nodes.push(CitedNode::Cite(name))?;
            continue;
        }
        let (atom, left, right) = classes.split(class - 1);
        nodes.push(CitedNode::Split(atom))?;
        left_over.push(right)?;
        left_over.push(left)?;
    }
    Ok(())
}

/// A class under its own name: its split, and then its sides.
fn body(
    alloc: Global,
    classes: &Classes,
    numbers: &[Option<usize>],
    index: usize,
) -> Result<CitedNodes, AllocError>
    requires can { CanWrite classes.now.splits.keys numbers.now [] }
    requires index { index < length numbers.now }
    ensures { IfOk result (λ nodes. (known : Listed Tree) (names : Listed Tree) (t : Tree)
        → Knows classes.now.splits.keys numbers.now known names → slice_get known index ≡ Some t
        → nodes ≡ body names t) }
{
    let (atom, left, right) = classes.split(index);
    let mut nodes = List::new(alloc);
    nodes.push(CitedNode::Split(atom))?;
    let mut left_over = Stack::new(alloc);
    left_over.push(right)?;
    left_over.push(left)?;
    write(classes, numbers, &mut left_over, &mut nodes)?;
    Ok(nodes)
}

/// The classes that have names, each under its own.
pub(crate) fn bodies(
    alloc: Global,
    classes: &Classes,
    numbers: &[Option<usize>],
) -> Result<CitedNames, AllocError>
    requires { CanWrite classes.now.splits.keys numbers.now [] }
    ensures { IfOk result (λ lists. (known : Listed Tree) (names : Listed Tree)
        → Knows classes.now.splits.keys numbers.now known names
        → lists ≡ map (body names) (picked known numbers.now)) }
{
    let mut lists = List::new(alloc);
    for index in 0..numbers.len() {
        if numbers[index].is_none() {
            continue;
        }
        let list = body(alloc, classes, numbers, index)?;
        lists.push(list)?;
    }
    Ok(lists)
}

/// A tree in its place, by its class.
pub(crate) fn in_place(
    alloc: Global,
    classes: &Classes,
    numbers: &[Option<usize>],
    class: usize,
) -> Result<CitedNodes, AllocError>
    requires { CanWrite classes.now.splits.keys numbers.now (class ∷ []) }
    ensures { IfOk result (λ nodes. (known : Listed Tree) (names : Listed Tree) (t : Tree)
        → Knows classes.now.splits.keys numbers.now known names → class_in known t ≡ Some class
        → nodes ≡ written names t) }
{
    let mut left_over = Stack::new(alloc);
    left_over.push(class)?;
    let mut nodes = List::new(alloc);
    write(classes, numbers, &mut left_over, &mut nodes)?;
    Ok(nodes)
}
