// What is live of a target on the way down to a region.
ghost use Rattle.std.specs.Prelude.{◌≡◌, ◌<◌, ◌-◌, true, List, IfOk, OnOk, IfSome, IsTrue, length, slice_get};
ghost use Rattle.cat_region.specs.declared.narrowing.Narrowing.{Narrowing as Narrowed};
ghost use Rattle.cat_region.specs.Regions.{Constraints, IsInhabited};
ghost use Rattle.cat_region.specs.Sides.{IsAt, Turns};
ghost use Rattle.cat_guard.specs.declared.table.Atom.{Atom as AtomSeen};
ghost use Rattle.cat_guard.specs.declared.table.TableTarget.{TableTarget as TargetSeen};
ghost use Rattle.cat_guard.specs.Judged.{answers_in};
ghost use Rattle.cat_guard.specs.Levels.{IsLiveAbove, AreLiveTo};
ghost use Rattle.cat_guard.specs.Live.{IsLiveOf};
ghost use Rattle.cat_guard.specs.Valuations.{dims_of};
ghost use Rattle.cat_guard.specs.inside.Past.{is_past};

use crate::Table;
use crate::conjuncts::{DefConjuncts, conjunct_count, long_conjuncts};
use crate::judging_laws::narrowing_keeps_what_is_live;
use crate::live::{LiveGroups, live_size};
use crate::pruned::still_live;
use crate::whole::all_live;
use cat_pos::Stack;
use cat_region::Region;
use std::alloc::{AllocError, Global};

/// What is live in a region on the way.
#[derive(Drop)]
pub struct Level {
    /// For how many narrowings the region has room.
    pub room: usize,
    pub live: LiveGroups,
    /// How many groups and definitions are live, where these are more than half of what the level above it has, and
    /// else 0.
    pub beside: usize,
}

/// What is live of a target in some of the regions on the way down to one, and what is so before any narrowing. A level
/// is at most half as large as the one above it, or one of those that together are as large as the long guards of the
/// target: so they are at most twice as large as the target, and as these.
#[derive(Drop)]
pub struct Levels {
    pub conjuncts: DefConjuncts,
    pub whole: LiveGroups,
    /// How much may still be kept of levels that are larger than half.
    pub spare: usize,
    pub levels: Stack<Level>,
}

impl Levels {
    /// Those of the whole.
    pub fn new(alloc: Global, table: &Table, target: u32) -> Result<Levels, AllocError>
        requires { target < length table.now.targets }
        ensures { IfOk result (λ levels. IfSome (slice_get table.now.targets target)
            (λ t. (atoms : List AtomSeen) (region : Constraints) → AreLiveTo atoms t region levels)) }
    {
        let conjuncts = long_conjuncts(alloc, table, target)?;
        let spare = conjunct_count(&conjuncts);
        let whole = all_live(alloc, table, target)?;
        Ok(Levels {
            conjuncts,
            whole,
            spare,
            levels: Stack::new(alloc),
        })
    }

    /// What is live in the last region of the way in which it was looked at.
    fn live(&self) -> &LiveGroups
        ensures { (atoms : List AtomSeen) (t : TargetSeen) (region : Constraints) → AreLiveTo atoms t region self.now
            → IsLiveAbove atoms t region result.now }
    {
        match self.levels.top() {
            Some(level) => &level.live,
            None => &self.whole,
        }
    }

    /// What is live in a region that admits something, at the end of the way. It costs a look at the guards of what is
    /// kept, which is at most about twice what is live.
    pub fn live_in(
        &self,
        alloc: Global,
        table: &Table,
        target: u32,
        region: &Region,
    ) -> Result<LiveGroups, AllocError>
        requires target { target < length table.now.targets }
        requires dims { region.now.dims ≡ dims_of table.now.terms }
        requires some { IsInhabited region.now }
        requires live { IfSome (slice_get table.now.targets target)
            (λ t. AreLiveTo table.now.atoms t region.now self.now) }
        ensures { IfOk result (λ live. IfSome (slice_get table.now.targets target)
            (λ t. IsLiveOf t (answers_in table.now.atoms region.now) live)) }
    {
        narrowing_keeps_what_is_live(table);
        // What is so of its narrowings.
        let _room = region.room();
        still_live(alloc, table, target, region, &self.conjuncts, self.live())
    }

    /// What a level of that size takes of what is to spare: all of it, where it is larger than half of the last one.
    fn beside_half(&self, size: usize) -> usize {
        if size > live_size(self.live()) / 2 {
            size
        } else {
            0
        }
    }

    /// Keeps what is live in the region at the end of the way, if it is at most half of what is kept already, or enough
    /// is to spare.
    pub fn keep(&mut self, region: &Region, live: LiveGroups) -> Result<(), AllocError>
        ensures { (atoms : List AtomSeen) (t : TargetSeen) → IsLiveOf t (answers_in atoms region.now) live
            → AreLiveTo atoms t region.now self.old → OnOk result (AreLiveTo atoms t region.now self.new) }
    {
        let beside = self.beside_half(live_size(&live));
        if beside > self.spare {
            return Ok(());
        }
        self.spare -= beside;
        let room = region.room();
        self.levels.push(Level { room, live, beside })
    }

    /// Whether the last level is of a region with at most that room.
    fn is_past(&self, room: usize) -> bool
        ensures past { result ≡ is_past room self.now.levels }
        ensures some { IsTrue result → 0 < length self.now.levels }
    {
        match self.levels.top() {
            Some(level) => level.room <= room,
            None => false,
        }
    }

    /// How much the last level takes of what may be kept.
    fn last_beside(&self) -> usize {
        match self.levels.top() {
            Some(level) => level.beside,
            None => 0,
        }
    }

    /// Drops the last level.
    fn drop_last(&mut self)
        ensures kept { (atoms : List AtomSeen) (t : TargetSeen) (region : Constraints)
            → AreLiveTo atoms t region self.old → AreLiveTo atoms t region self.new }
        ensures fewer { length self.new.levels ≡ length self.old.levels - 1 }
    {
        self.spare = self.spare.saturating_add(self.last_beside());
        let _ = self.levels.pop();
    }

    /// Drops the levels that aren't on the way to a region, where this is the next one behind the way back.
    pub fn back_to(&mut self, region: &Region)
        ensures { (atoms : List AtomSeen) (t : TargetSeen) (base before : Constraints) (path : List Narrowed)
            → IsAt base path before → Turns base path true region.now → AreLiveTo atoms t before self.old
            → AreLiveTo atoms t region.now self.new }
    {
        let room = region.room();
        while self.is_past(room) {
            self.drop_last();
        }
    }
}
