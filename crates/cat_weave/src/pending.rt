// The segments that are still to be taken.
ghost use Rattle.std.specs.Prelude.{◌≡◌, [], ◌∷◌, ◌++◌, length, IfOk, MatchOption, OnOk};

use crate::{Segment, Segments};
use cat_pos::List;
use std::alloc::{AllocError, Global};
use std::marker::Model;

/// The segments to come, in order.
#[derive(Drop)]
pub(crate) struct Pending {
    /// The next segment stands last.
    segments: Vec<Segment>,
}

impl Model for Pending {
    ghost use Rattle.std.specs.Prelude.{List, reverse};
    ghost use Rattle.cat_weave.specs.declared.segment.Segment.{Segment};

    ghost Value = { List Segment };

    ghost view = { λ pending. reverse pending.segments.items };
}

impl Pending {
    pub(crate) fn new(alloc: Global) -> Pending
        ensures { result ≡ [] }
    {
        Pending {
            segments: Vec::new(alloc),
        }
    }

    #[tactic(auto, using(crate::proofs::GatherLemmas::reverse_push))]
    pub(crate) fn next(&mut self) -> Option<Segment>
        ensures { MatchOption result ((self.old ≡ []) × (self.new ≡ []))
            (λ segment. self.old ≡ segment ∷ self.new) }
    {
        self.segments.pop()
    }

    /// Puts segments in front of those to come.
    #[tactic(auto, using(crate::proofs::GatherLemmas::moved))]
    pub(crate) fn put_in_front(&mut self, segments: Segments) -> Result<(), AllocError>
        ensures { OnOk result (self.new ≡ segments ++ self.old) }
    {
        let mut segments = segments.into_vec();
        while let Some(segment) = segments.pop() {
            self.segments.push(segment)?;
        }
        Ok(())
    }
}
