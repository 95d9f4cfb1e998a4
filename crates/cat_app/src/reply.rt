// The reply to the words, before any of it is written.
ghost use Rattle.std.specs.Prelude.{◌≡◌, IfOk, OnErr};
ghost use Rattle.cat_io.specs.Stored.{texts_of};
ghost use Rattle.cat_app.specs.Table.{ListsOne};
ghost use Rattle.cat_app.specs.inside.AskedWords.{HasBands};
ghost use Rattle.cat_app.specs.inside.Reading.{MayBeWritten, MayWriteTo};

use crate::Status;
use crate::drilled::drilled;
use crate::executed::listing_reply;
use crate::many::ManyInputs;
use crate::request::{AskedFor, read_words};
use crate::scoped::scope_reply;
use crate::texts::usage;
use cat_io::Shelf;
use std::alloc::{AllocError, Global};

/// A status and the whole text that is to be written.
#[derive(Drop)]
pub struct Reply {
    pub status: Status,
    pub text: String,
}

/// What is to be written: a whole text at once, or the line of each of many inputs, some whole lines at once.
#[derive(Drop)]
pub enum ToWrite {
    Text(Reply),
    Lines(ManyInputs),
}

/// The reply to what is asked.
fn reply_to<S: Shelf>(
    alloc: Global,
    asked: AskedFor<'_>,
    shelf: &mut S,
) -> Result<ToWrite, AllocError>
    requires { HasBands asked }
    ensures told { (S.state shelf.new).content ≡ (S.state shelf.old).content }
    ensures may { IfOk result (MayWriteTo asked.entry (S.state shelf.old) (S.state shelf.new)) }
    ensures lists { OnErr result (ListsOne (S.state shelf.old) (S.state shelf.new)) }
{
    match asked {
        AskedFor::Scope(words) => scope_reply(alloc, words, shelf),
        AskedFor::Listing(words) => Ok(ToWrite::Text(listing_reply(alloc, words, shelf)?)),
        AskedFor::Drill(bands) => Ok(ToWrite::Text(drilled(alloc, bands)?)),
    }
}

/// The reply to the words, over the files of the shelf.
pub fn reply_of<S: Shelf>(
    alloc: Global,
    words: &[String],
    shelf: &mut S,
) -> Result<ToWrite, AllocError>
    ensures told { (S.state shelf.new).content ≡ (S.state shelf.old).content }
    ensures may { IfOk result (MayBeWritten (texts_of words.now) (S.state shelf.old) (S.state shelf.new)) }
    ensures lists { OnErr result (ListsOne (S.state shelf.old) (S.state shelf.new)) }
{
    match read_words(alloc, words)? {
        Some(asked) => reply_to(alloc, asked, shelf),
        None => Ok(ToWrite::Text(usage(alloc)?)),
    }
}
