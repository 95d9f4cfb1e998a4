// Regions: what is left of each dimension, and a trail by which the last narrowing is undone.
ghost use Rattle.std.specs.Prelude.{◌≡◌, ◌<◌, ◌+◌, ◌-◌, ◌++◌, ◌∷◌, [], true, false, IsTrue, IfOk, length, take};
ghost use Rattle.std.specs.Prelude.{map};
ghost use Rattle.std.specs.List.{list_all, list_any};
ghost use Rattle.cat_region.specs.Regions.{is_dim, is_cut_at, last_narrowing, narrowed_to, IsRegion, IsEmpty};
ghost use Rattle.cat_region.specs.Regions.{IsInhabited, IsDecision};
ghost use Rattle.cat_region.specs.Decided.{admits_none, decided_at};
ghost use Rattle.cat_region.specs.Extents.{start, is_none};
ghost use Rattle.cat_region.specs.Chosen.{point_at};
ghost use Rattle.cat_region.specs.Choices.{IsPointOf};
ghost use Rattle.cat_region.specs.inside.Trails.{decided_by};

use crate::choice::point_in;
use crate::cut::Cut;
use crate::dim::Dim;
use crate::extent::{Extent, whole};
use crate::narrowing::Narrowing;
use crate::point::Point;
use cat_pos::List;
use std::alloc::{AllocError, Global};
use std::marker::Model;

/// A narrowing, with what was left of its dimension before it, and whether nothing was admitted then.
#[derive(Clone, Copy, PartialEq, Eq, Debug)]
pub struct NarrowingStep {
    pub narrowing: Narrowing,
    pub left: Extent,
    pub empty: bool,
}

/// The valuations of some dimensions that agree with the narrowings made. What it asks and does costs the size of one
/// dimension, and not of the narrowings made: it keeps what is left of each dimension, and undoes a narrowing by
/// putting back what was left before.
#[derive(Drop)]
pub struct Region {
    dims: List<Dim>,
    left: List<Extent>,
    empty: bool,
    trail: List<NarrowingStep>,
    made: usize,
}

impl Model for Region {
    ghost use Rattle.cat_region.specs.Regions.{Constraints};
    ghost use Rattle.cat_region.specs.inside.Trails.{IsTrail, seen};

    ghost Value = { Constraints };

    ghost view = { λ r. seen r.dims r.trail r.made };

    ghost invariant = { λ r. IsTrail r.dims r.left r.empty r.trail r.made };
}

/// What is left of each dimension before any narrowing.
fn all_of(alloc: Global, dims: &[Dim]) -> Result<List<Extent>, AllocError>
    requires { IsTrue (list_all is_dim dims.now) }
    ensures { IfOk result (λ left. left ≡ map start dims.now) }
{
    let mut left = List::new(alloc);
    for dim in dims {
        left.push(whole(dim))?;
    }
    Ok(left)
}

/// Whether nothing is left of some dimension.
fn is_some_none(left: &[Extent]) -> bool
    ensures { result ≡ list_any is_none left.now }
{
    left.iter().any(|extent| extent.is_none())
}

/// The answer to a cut of a dimension of which this is left, where something is admitted and all of it has one.
fn decision(empty: bool, left: Extent, cut: &Cut) -> Option<bool>
    ensures { result ≡ decided_by empty left cut.now }
{
    if empty {
        None
    } else if left.narrowed(cut, false).is_none() {
        Some(true)
    } else if left.narrowed(cut, true).is_none() {
        Some(false)
    } else {
        None
    }
}

impl Region {
    /// The region that admits every valuation of these dimensions, with room for `depth` narrowings.
    pub fn new(alloc: Global, dims: &[Dim], depth: usize) -> Result<Region, AllocError>
        requires { IsTrue (list_all is_dim dims.now) }
        ensures { IfOk result (λ region. region ≡ record { dims = dims.now; narrowings = []; room = depth }) }
    {
        let left = all_of(alloc, dims)?;
        let unmade = NarrowingStep {
            narrowing: Narrowing {
                dim: 0,
                cut: Cut::IsTrue,
                yes: true,
            },
            left: Extent::Cases(0),
            empty: false,
        };
        Ok(Region {
            dims: List::from_slice(alloc, dims)?,
            empty: is_some_none(left.as_slice()),
            left,
            trail: List::from_vec(vec![in alloc; unmade; depth]?),
            made: 0,
        })
    }

    /// Keeps of what is admitted what has this answer.
    pub fn narrow(&mut self, dim: usize, cut: &Cut, yes: bool)
        requires cut { IsTrue (is_cut_at self.old.dims dim cut.now) }
        requires room { 0 < self.old.room }
        ensures dims { self.new.dims ≡ self.old.dims }
        ensures narrowings { self.new.narrowings ≡ self.old.narrowings ++ narrowed_to dim cut.now yes ∷ [] }
        ensures room { self.new.room + 1 ≡ self.old.room }
    {
        // The count below fits, since the trail's length does.
        let _room = self.trail.len();
        let left = *self.left.at(dim);
        let narrowing = Narrowing {
            dim,
            cut: *cut,
            yes,
        };
        let step = NarrowingStep {
            narrowing,
            left,
            empty: self.empty,
        };
        self.trail.set(self.made, step);
        self.made += 1;
        let left = left.narrowed(cut, yes);
        self.empty |= left.is_none();
        self.left.set(dim, left);
    }

    /// Undoes the last narrowing.
    pub fn restore(&mut self)
        requires { 0 < length self.old.narrowings }
        ensures dims { self.new.dims ≡ self.old.dims }
        ensures narrowings { self.new.narrowings ≡ take (length self.old.narrowings - 1) self.old.narrowings }
        ensures room { self.new.room ≡ self.old.room + 1 }
    {
        self.made -= 1;
        let step = *self.trail.at(self.made);
        self.left.set(step.narrowing.dim, step.left);
        self.empty = step.empty;
    }

    /// The dimension, the cut and the answer of the last narrowing that isn't undone.
    pub fn last(&self) -> Option<(usize, Cut, bool)>
        ensures { result ≡ last_narrowing self.now.narrowings }
    {
        if self.made == 0 {
            return None;
        }
        let Narrowing { dim, cut, yes } = self.trail.at(self.made - 1).narrowing;
        Some((dim, cut, yes))
    }

    /// The answer that all admitted valuations give, where one is admitted and they agree.
    pub fn decided(&self, dim: usize, cut: &Cut) -> Option<bool>
        requires { IsTrue (is_cut_at self.now.dims dim cut.now) }
        ensures value { result ≡ decided_at self.now dim cut.now }
        ensures exact { IsDecision self.now dim cut.now result }
    {
        decision(self.empty, *self.left.at(dim), cut)
    }

    /// Whether no valuation is admitted.
    pub fn is_empty(&self) -> bool
        ensures value { result ≡ admits_none self.now }
        ensures empty { result ≡ true → IsEmpty self.now }
        ensures inhabited { result ≡ false → IsInhabited self.now }
    {
        self.empty
    }

    /// For how many narrowings there is still room.
    pub fn room(&self) -> usize
        ensures value { result ≡ self.now.room }
        ensures sound { IsRegion self.now }
    {
        self.trail.len() - self.made
    }

    /// One admitted value of a dimension.
    pub fn point(&self, dim: usize) -> Point
        requires dim { dim < length self.now.dims }
        requires inhabited { IsInhabited self.now }
        ensures value { result ≡ point_at self.now dim }
        ensures chosen { IsPointOf self.now dim result }
    {
        point_in(self.dims.at(dim), *self.left.at(dim))
    }
}
