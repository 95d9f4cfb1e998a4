// The top call: the reply first, and then one put, or of many inputs one for so many lines.
ghost use Rattle.std.specs.Prelude.{◌≡◌, ◌≢◌, true, false, IfSome};
ghost use Rattle.cat_io.specs.Count.{FaultsRose};
ghost use Rattle.cat_io.specs.Stored.{texts_of};
ghost use Rattle.cat_app.specs.Table.{Answers};
ghost use Rattle.cat_app.specs.Calm.{NoFileRose};
ghost use Rattle.cat_app.specs.Complete.{RepliesFit, is_fault, is_reply};
ghost use Rattle.cat_app.specs.EachMode.{WritesWhatIsAsked};
ghost use Rattle.cat_app.specs.inside.Reading.{PutsText};

use crate::Status;
use crate::many::put_lines;
use crate::reply::{Reply, ToWrite, reply_of};
use cat_build::{pieces_have_one_program, refused_pieces_are_not_accepted};
use cat_image::a_text_has_one_image;
use cat_io::{Shelf, Sink};
use cat_verify_tables::lines_tell_one_table;
use cat_weave::told_sources_are_gathered;
use std::alloc::Global;

/// Does all that the program does, over the words after its name, and gives the status that it ends with.
///
/// | Status | What is written |
/// |---|---|
/// | `Fine`, `Conflict`, `NoValue`, `Fault` | of a run, the scope's outcome on the input; of an emit with an input, that behind the code and its steps; of a trace, that behind what decided each judging |
/// | `Fine` | of an audit, a complete report and its certificate |
/// | `Found`, `Unsettled` | the report of an audit |
/// | `Fine`, `Unsettled` | the decision tables of a scope's targets; whether all leaves of each are shown |
/// | `Fine`, `Found`, `Unsettled` | the report on a scope's definitions; whether one never decides, or it isn't known of one whether it does |
/// | `Fine`, `Certificate` | of a check, a yes, or why the certificate is refused; of a certificate of dead definitions, these in front of the yes |
/// | `Fine` | of an emit, the listing of the program's code |
/// | `Fine`, `Conflict`, `NoValue`, `Fault` | of a run of listed code, what the code gives the scope on the input |
/// | `Listing` | the code by which the listing is refused, and of which line or instruction |
/// | `Fine` | of many inputs, the line of each as a run on it alone writes it |
/// | `Fine` | of a drill, its line; where a run of it has no value, that outcome with its own status |
/// | `Source` | the code and the position by which the source is refused |
/// | `Input` | the code by which the input is refused, and of which part |
/// | `Usage` | how the program is used, that the source has no such scope, or the scope no such target |
/// | `Missing`, `ReadFault`, `TooLarge` | the name of a file whose count of misses, faults or long reads rose |
/// | `WriteFault` | the front of one of these texts, of many inputs whole lines and the front of one; the sink's count of faults rose |
/// | `Memory` | nothing, or of many inputs the lines of the first ones |
pub fn catala<S: Shelf, K: Sink>(
    alloc: Global,
    words: &[String],
    shelf: &mut S,
    sink: &mut K,
) -> Status
    ensures no_read_changes_what_is_told { (S.state shelf.new).content ≡ (S.state shelf.old).content }

    ensures each_answer_has_its_cause_and_its_text { Answers (texts_of words.now)
        (S.state shelf.old) (S.state shelf.new) (K.state sink.old) (K.state sink.new) result }

    ensures a_fault_comes_only_where_a_count_rose { NoFileRose (texts_of words.now) (S.state shelf.old)
        (S.state shelf.new)
        → (FaultsRose (K.state sink.old).faults (K.state sink.new).faults → ⊥)
        → is_fault result ≡ false }

    ensures a_reply_comes_only_where_no_count_rose { is_reply result ≡ true → S.state shelf.new ≡ S.state shelf.old }

    ensures what_fits_is_written { IfSome (K.state sink.old).room (λ room.
        RepliesFit (texts_of words.now) (S.state shelf.old) (S.state shelf.new) room
        → (result ≢ Status.WriteFault) × ((K.state sink.new).faults ≡ (K.state sink.old).faults)) }

    // Over told contents each mode writes what its words ask for: a field for each of them.
    ensures each_mode_writes_what_is_asked { WritesWhatIsAsked (texts_of words.now) (S.state shelf.old)
        (K.state sink.old) (K.state sink.new) result }
{
    pieces_have_one_program();
    refused_pieces_are_not_accepted();
    told_sources_are_gathered();
    a_text_has_one_image();
    lines_tell_one_table();
    answer(alloc, words, shelf, sink)
}

// A whole text, by a single put.
fn put_text<K: Sink>(reply: Reply, sink: &mut K) -> Status
    ensures { PutsText reply (K.state sink.old) (K.state sink.new) result }
{
    match sink.put(reply.text.as_bytes()) {
        Ok(()) => reply.status,
        Err(_) => Status::WriteFault,
    }
}

// The reply first, and then what it has to write.
fn answer<S: Shelf, K: Sink>(alloc: Global, words: &[String], shelf: &mut S, sink: &mut K) -> Status
    ensures told { (S.state shelf.new).content ≡ (S.state shelf.old).content }
    ensures answers { Answers (texts_of words.now) (S.state shelf.old) (S.state shelf.new)
        (K.state sink.old) (K.state sink.new) result }
{
    let Ok(to_write) = reply_of(alloc, words, shelf) else {
        return Status::Memory;
    };
    match to_write {
        ToWrite::Text(reply) => put_text(reply, sink),
        ToWrite::Lines(many) => put_lines(alloc, many, sink),
    }
}
