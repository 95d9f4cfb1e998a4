// Files taken depth first, by a list of the segments to come.
ghost use Rattle.std.specs.Prelude.{◌≡◌, ◌≢◌, ◌-◌, ◌<◌, ◌≤◌, ℕ, List, [], ◌∷◌, length, Ok, Err, IfOk, IfErr, OnOk};
ghost use Rattle.cat_pos.specs.Position.{pos_file};
ghost use Rattle.cat_weave.specs.Woven.{woven, AreWithin};
ghost use Rattle.cat_weave.specs.Gathered.{gathered, gathered_none, woven_as, is_among};
ghost use Rattle.cat_weave.specs.Causes.{HasCause, IsAnswerTo, AreReadableTogether};
ghost use Rattle.cat_weave.specs.inside.Worklist.{include_with};
ghost use Rattle.cat_weave.specs.inside.UnderWay.{gathered_of, AreBounded, ReadsFile, IsTaken, IsRefusedTake, GoesOn};
ghost use Rattle.cat_weave.specs.inside.UnderWay.{AreToCome, LeadsOn, IsKept, left_to_take};

use crate::pending::Pending;
use crate::{GatherRefusal, Heading, Headings, Segment, Segments, Source, WeaveRefusal, weave};
use cat_io::{Shelf, ShelfFault, read_all};
use cat_pos::{Files, List, MOST_FILE_BYTES, MOST_FILES, MOST_SOURCE_BYTES, Pieces, Pos, Text};
use std::alloc::Global;

/// Reads a file and all that it includes, depth first: at most 64 files, each once, of at most 4 MiB
/// each and 16 MiB together.
pub fn gather<S: Shelf>(alloc: Global, shelf: &mut S, main: &str) -> Result<Source, GatherRefusal>
    ensures cause { HasCause (S.state shelf.old) (S.state shelf.new) main.now result }
    ensures answer { IsAnswerTo (gathered (S.state shelf.old).content main.now) result }
    ensures readable { IfOk result (λ source. AreReadableTogether source.pieces) }
{
    let mut gathering = Gathering::new(alloc);
    gathering.take(alloc, shelf, main)?;
    gathering.take_segments(alloc, shelf)?;
    let Gathering {
        files,
        bytes: _,
        pieces,
        headings,
        to_come: _,
    } = gathering;
    Ok(Source {
        files,
        pieces,
        headings,
    })
}

/// The files taken and what they gave so far.
#[derive(Drop)]
struct Gathering {
    files: Files,
    /// How many bytes the files have.
    bytes: usize,
    pieces: Pieces,
    headings: Headings,
    to_come: Pending,
}

impl Gathering {
    fn new(alloc: Global) -> Gathering
        ensures gathered { gathered_of result ≡ gathered_none }
        ensures none { result.to_come ≡ [] }
    {
        Gathering {
            files: Files::new(alloc),
            bytes: 0,
            pieces: List::new(alloc),
            headings: List::new(alloc),
            to_come: Pending::new(alloc),
        }
    }

    /// Takes all segments to come, and those of the files that they include.
    fn take_segments<S: Shelf>(&mut self, alloc: Global, shelf: &mut S) -> Result<(), GatherRefusal>
        requires { AreBounded (gathered_of self.old) self.old.to_come }
        ensures on { OnOk result (LeadsOn (S.state shelf.old).content
            (λ main. AreToCome (S.state shelf.old).content main (gathered_of self.old) self.old.to_come)
            (gathered_of self.new) []) }
        ensures same { OnOk result (S.state shelf.new ≡ S.state shelf.old) }
        ensures cause { IfErr result (λ e. (main : List ℕ)
            → AreToCome (S.state shelf.old).content main (gathered_of self.old) self.old.to_come
            → HasCause (S.state shelf.old) (S.state shelf.new) main (Err e)) }
    {
        while let Some(segment) = self.to_come.next() {
            self.take_segment(alloc, shelf, segment)?;
        }
        Ok(())
    }

    fn take_segment<S: Shelf>(
        &mut self,
        alloc: Global,
        shelf: &mut S,
        segment: Segment,
    ) -> Result<(), GatherRefusal>
        requires { AreBounded (gathered_of self.old) (segment ∷ self.old.to_come) }
        ensures on { OnOk result (LeadsOn (S.state shelf.old).content
            (λ main. AreToCome (S.state shelf.old).content main (gathered_of self.old) (segment ∷ self.old.to_come))
            (gathered_of self.new) self.new.to_come) }
        ensures kept { OnOk result (IsKept (S.state shelf.old) (S.state shelf.new)
            (left_to_take (gathered_of self.new) self.new.to_come)
            (left_to_take (gathered_of self.old) self.old.to_come)) }
        ensures cause { IfErr result (λ e. (main : List ℕ)
            → AreToCome (S.state shelf.old).content main (gathered_of self.old) (segment ∷ self.old.to_come)
            → HasCause (S.state shelf.old) (S.state shelf.new) main (Err e)) }
    {
        match segment {
            Segment::Code(piece) => Ok(self.pieces.push(piece)?),
            Segment::Heading(level, text, pos) => {
                let pieces = self.pieces.len();
                Ok(
                    self.headings.push(Heading {
                        pieces,
                        level,
                        text,
                        pos,
                    })?,
                )
            }
            Segment::Include(path, pos) => self.include(alloc, shelf, path.as_str(), pos),
        }
    }

    fn include<S: Shelf>(
        &mut self,
        alloc: Global,
        shelf: &mut S,
        path: &str,
        pos: Pos,
    ) -> Result<(), GatherRefusal>
        requires bounded { AreBounded (gathered_of self.old) self.old.to_come }
        requires named { pos_file pos < length self.old.files }
        ensures on { OnOk result (LeadsOn (S.state shelf.old).content
            (λ main. GoesOn (S.state shelf.old).content main self.old.files (λ contents.
            include_with contents (64 - length self.old.files) path.now pos self.old.to_come (gathered_of self.old)))
            (gathered_of self.new) self.new.to_come) }
        ensures kept { OnOk result (IsKept (S.state shelf.old) (S.state shelf.new)
            (left_to_take (gathered_of self.new) self.new.to_come)
            (left_to_take (gathered_of self.old) self.old.to_come)) }
        ensures cause { IfErr result (λ e. (main : List ℕ)
            → GoesOn (S.state shelf.old).content main self.old.files (λ contents.
            include_with contents (64 - length self.old.files) path.now pos self.old.to_come (gathered_of self.old))
            → HasCause (S.state shelf.old) (S.state shelf.new) main (Err e)) }
    {
        if self.files.len() == MOST_FILES || is_taken(&self.files, path) {
            let name = Text::from_str(alloc, self.files.name(pos.file()))?;
            return Err(GatherRefusal::IncludeTwice(name, pos));
        }
        self.take(alloc, shelf, path)
    }

    /// Takes a file: reads it, weaves it, and puts its segments in front of those to come.
    fn take<S: Shelf>(
        &mut self,
        alloc: Global,
        shelf: &mut S,
        name: &str,
    ) -> Result<(), GatherRefusal>
        requires bounded { AreBounded (gathered_of self.old) self.old.to_come }
        requires room { length self.old.files < MOST_FILES }
        ensures taken { OnOk result (IsTaken (S.state shelf.old) (S.state shelf.new) name.now
            (gathered_of self.old) self.old.to_come (gathered_of self.new) self.new.to_come) }
        ensures bounded { OnOk result (AreBounded (gathered_of self.new) self.new.to_come) }
        ensures refused { IfErr result (IsRefusedTake name.now (gathered_of self.old)
            (S.state shelf.old) (S.state shelf.new)) }
    {
        let limit = MOST_FILE_BYTES.min(MOST_SOURCE_BYTES - self.bytes);
        let bytes = read_file(alloc, shelf, name, limit)?;
        let number = self.files.add(name)?;
        let segments = woven_segments(alloc, name, &bytes, number)?;
        self.bytes += bytes.len();
        self.to_come.put_in_front(segments)?;
        Ok(())
    }
}

#[tactic(auto, using(crate::proofs::GatherLemmas::among_yes, crate::proofs::GatherLemmas::among_no))]
fn is_taken(files: &Files, name: &str) -> bool
    requires { length files.now ≤ MOST_FILES }
    ensures { result ≡ is_among name.now files.now }
{
    for file in 0..files.len() as u32 {
        if files.name(file) == name {
            return true;
        }
    }
    false
}

/// What a file of at most `limit` bytes holds.
fn read_file<S: Shelf>(
    alloc: Global,
    shelf: &mut S,
    name: &str,
    limit: usize,
) -> Result<Vec<u8>, GatherRefusal>
    ensures { ReadsFile name.now limit (S.state shelf.old) (S.state shelf.new) result }
{
    match read_all(alloc, shelf, name, limit) {
        Ok(bytes) => Ok(bytes),
        Err(ShelfFault::Missing) => Err(GatherRefusal::Missing(Text::from_str(alloc, name)?)),
        Err(ShelfFault::Failed) => Err(GatherRefusal::ReadFault(Text::from_str(alloc, name)?)),
        Err(ShelfFault::Long) => Err(GatherRefusal::TooLarge(Text::from_str(alloc, name)?)),
        Err(ShelfFault::Memory) => Err(GatherRefusal::Memory),
    }
}

/// The segments of a file, or its refusal with its name.
fn woven_segments(
    alloc: Global,
    name: &str,
    bytes: &[u8],
    number: u32,
) -> Result<Segments, GatherRefusal>
    requires short { length bytes.now ≤ MOST_FILE_BYTES }
    requires file { number < MOST_FILES }
    ensures gives { result ≢ Err GatherRefusal.Memory
        → result ≡ woven_as name.now (woven bytes.now number) }
    ensures within { IfOk result (λ segments. AreWithin (length bytes.now) number segments) }
{
    match weave(alloc, bytes, number) {
        Ok(woven) => Ok(woven.segments),
        Err(WeaveRefusal::NotUtf8(pos)) => {
            Err(GatherRefusal::NotUtf8(Text::from_str(alloc, name)?, pos))
        }
        Err(WeaveRefusal::FenceOpen(pos)) => {
            Err(GatherRefusal::FenceOpen(Text::from_str(alloc, name)?, pos))
        }
        Err(WeaveRefusal::Memory) => Err(GatherRefusal::Memory),
    }
}
