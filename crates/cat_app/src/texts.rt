// The texts of replies that tell of no outcome.
ghost use Rattle.std.specs.Prelude.{◌≡◌, [], IfOk, codes, string_bytes};
ghost use Rattle.cat_answer.specs.Answer as answers;
ghost use Rattle.cat_build.specs.Codes.{number_of};
ghost use Rattle.cat_app.specs.Lines.{line, listing_line, part_line, refusal_line};
ghost use Rattle.cat_app.specs.inside.Says.{Says, SaysFault, SaysGathering, SaysInput};
ghost use Rattle.cat_app.specs.inside.SaysOfListings.{SaysCode, SaysImage};

use crate::Status;
use crate::reply::Reply;
use cat_answer::{named_position, position_text};
use cat_build::FaultCode;
use cat_image::ImageRefusal;
use cat_io::ShelfFault;
use cat_json::InputRefusal;
use cat_pos::{Files, Pos};
use cat_verify::VerifyRefusal;
use cat_weave::GatherRefusal;
use std::alloc::{AllocError, Global};

/// How the program is used.
pub fn usage(alloc: Global) -> Result<Reply, AllocError>
    ensures { IfOk result (Says Status.Usage
        (line (codes "usage: catala MODE SCOPE FILE [EXTRA] [--cases N]") [])) }
{
    let text = String::from_str(alloc, "usage: catala MODE SCOPE FILE [EXTRA] [--cases N]\n")?;
    Ok(Reply {
        status: Status::Usage,
        text,
    })
}

/// The source declares no such scope.
pub fn no_scope(alloc: Global, name: &str) -> Result<Reply, AllocError>
    ensures { IfOk result (Says Status.Usage (line (codes "no such scope ") name.now)) }
{
    let text = format!(in alloc; "no such scope {name}\n")?;
    Ok(Reply {
        status: Status::Usage,
        text,
    })
}

/// A file can't be read.
pub fn refuse_file(alloc: Global, name: &str, fault: ShelfFault) -> Result<Reply, AllocError>
    ensures { IfOk result (SaysFault name.now fault) }
{
    let (status, text) = match fault {
        ShelfFault::Missing => { (Status::Missing, format!(in alloc; "missing file {name}\n")?) }
        ShelfFault::Failed => { (Status::ReadFault, format!(in alloc; "read fault {name}\n")?) }
        ShelfFault::Long => (Status::TooLarge, format!(in alloc; "too large {name}\n")?),
        ShelfFault::Memory => return Err(AllocError),
    };
    Ok(Reply { status, text })
}

/// The source is refused by the code of that number, at a position in a file of that name.
fn refuse_named(alloc: Global, number: u32, name: &str, pos: Pos) -> Result<Reply, AllocError>
    ensures { IfOk result (Says Status.Source (refusal_line number (answers.named_position name.now pos))) }
{
    let position = named_position(alloc, name, pos)?;
    let text = format!(in alloc; "source refused E{number} at {position}\n")?;
    Ok(Reply {
        status: Status::Source,
        text,
    })
}

/// The files of the source can't be gathered.
pub fn refuse_gathering(alloc: Global, refusal: GatherRefusal) -> Result<Reply, AllocError>
    ensures { IfOk result (SaysGathering refusal) }
{
    match refusal {
        GatherRefusal::NotUtf8(name, pos) => refuse_named(alloc, 1, name.as_str(), pos),
        GatherRefusal::FenceOpen(name, pos) => refuse_named(alloc, 2, name.as_str(), pos),
        GatherRefusal::IncludeTwice(name, pos) => refuse_named(alloc, 3, name.as_str(), pos),
        GatherRefusal::Missing(name) => refuse_file(alloc, name.as_str(), ShelfFault::Missing),
        GatherRefusal::ReadFault(name) => refuse_file(alloc, name.as_str(), ShelfFault::Failed),
        GatherRefusal::TooLarge(name) => refuse_file(alloc, name.as_str(), ShelfFault::Long),
        GatherRefusal::Memory => Err(AllocError),
    }
}

/// The source is refused by a code, at a position in one of its files.
pub fn refuse_source(
    alloc: Global,
    files: &Files,
    code: FaultCode,
    pos: Pos,
) -> Result<Reply, AllocError>
    ensures { IfOk result (Says Status.Source (refusal_line (number_of code) (answers.position_text files.now pos))) }
{
    let number = code.number();
    let position = position_text(alloc, files, pos)?;
    let text = format!(in alloc; "source refused E{number} at {position}\n")?;
    Ok(Reply {
        status: Status::Source,
        text,
    })
}

/// The input is refused.
pub fn refuse_input(alloc: Global, refusal: InputRefusal) -> Result<Reply, AllocError>
    ensures { IfOk result (SaysInput refusal) }
{
    let text = match refusal {
        InputRefusal::NotJson => String::from_str(alloc, "input refused I1\n")?,
        InputRefusal::Missing(path) => refused_part(alloc, 2, path.as_str())?,
        InputRefusal::Extra(path) => refused_part(alloc, 3, path.as_str())?,
        InputRefusal::WrongForm(path) => refused_part(alloc, 4, path.as_str())?,
        InputRefusal::OutOfRange(path) => refused_part(alloc, 5, path.as_str())?,
        InputRefusal::Memory => return Err(AllocError),
    };
    Ok(Reply {
        status: Status::Input,
        text,
    })
}

/// The line that refuses a part of the input.
fn refused_part(alloc: Global, number: u32, path: &str) -> Result<String, AllocError>
    ensures { IfOk result (λ text. string_bytes text ≡ part_line number path.now) }
{
    format!(in alloc; "input refused I{number} {path}\n")
}

/// A listing is refused by a code, at a place of it that has a number.
fn refuse_listing(alloc: Global, words: &str, number: usize) -> Result<Reply, AllocError>
    ensures { IfOk result (Says Status.Listing (listing_line words.now number)) }
{
    let text = format!(in alloc; "listing refused {words}{number}\n")?;
    Ok(Reply {
        status: Status::Listing,
        text,
    })
}

/// Bytes are no image.
pub fn refuse_image(alloc: Global, refusal: ImageRefusal) -> Result<Reply, AllocError>
    ensures { IfOk result (SaysImage refusal) }
{
    match refusal {
        ImageRefusal::BadLine(number) => refuse_listing(alloc, "L1 at line ", number),
        ImageRefusal::Short => {
            let text = String::from_str(alloc, "listing refused L2\n")?;
            Ok(Reply {
                status: Status::Listing,
                text,
            })
        }
        ImageRefusal::Memory => Err(AllocError),
    }
}

/// An image isn't one of valid and tame code.
pub fn refuse_code(alloc: Global, refusal: VerifyRefusal) -> Result<Reply, AllocError>
    ensures { IfOk result (SaysCode refusal) }
{
    match refusal {
        VerifyRefusal::BadTable(line) => refuse_listing(alloc, "V1 at line ", line),
        VerifyRefusal::BadNumber(place) => refuse_listing(alloc, "V2 at instruction ", place),
        VerifyRefusal::Endless(place) => refuse_listing(alloc, "V3 at instruction ", place),
        VerifyRefusal::BadShape(place) => refuse_listing(alloc, "V4 at instruction ", place),
        VerifyRefusal::Memory => Err(AllocError),
    }
}
