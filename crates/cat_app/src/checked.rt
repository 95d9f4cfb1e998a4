// A check of a certificate for a scope.
ghost use Rattle.std.specs.Prelude.{◌≡◌, ◌<◌, IfOk, length, string_bytes};
ghost use Rattle.std.specs.Option.{option_map};
ghost use Rattle.cat_build.specs.Built.{IsBuiltOf};
ghost use Rattle.cat_app.specs.Checks.{code_line, yes_text};
ghost use Rattle.cat_app.specs.inside.Says.{Says, SaysCertificate, SaysChecked};

use crate::Status;
use crate::reply::Reply;
use cat_build::{Built, accepted_programs_are_counted};
use cat_cert::{CertRefusal, certified};
use cat_scope::programs_are_well_formed;
use cat_weave::Source;
use std::alloc::{AllocError, Global};

/// The line that refuses a certificate at a line of it.
fn code_line(alloc: Global, number: u32, line: usize) -> Result<String, AllocError>
    ensures { IfOk result (λ text. string_bytes text ≡ code_line number line) }
{
    format!(in alloc; "certificate refused C{number} at line {line}\n")
}

/// The certificate is refused.
pub(crate) fn refuse_certificate(alloc: Global, why: CertRefusal) -> Result<Reply, AllocError>
    ensures { IfOk result (SaysCertificate why) }
{
    let text = match why {
        CertRefusal::BadLine(line) => code_line(alloc, 1, line)?,
        CertRefusal::WrongName(line) => code_line(alloc, 2, line)?,
        CertRefusal::NotCovered(line) => code_line(alloc, 3, line)?,
        CertRefusal::Short => String::from_str(alloc, "certificate refused C4\n")?,
        CertRefusal::Trailing(line) => code_line(alloc, 5, line)?,
        CertRefusal::TooWide(line) => code_line(alloc, 6, line)?,
        CertRefusal::Memory => return Err(AllocError),
    };
    Ok(Reply {
        status: Status::Certificate,
        text,
    })
}

/// The certificate is one, and this is written over.
fn say_yes(alloc: Global, over: Option<String>) -> Result<Reply, AllocError>
    ensures { IfOk result (Says Status.Fine (yes_text (option_map string_bytes over))) }
{
    let mut text = String::from_str(alloc, "Yes\n")?;
    if let Some(over) = over {
        text.push_str(over.as_str())?;
    }
    Ok(Reply {
        status: Status::Fine,
        text,
    })
}

/// What a check of the bytes says of the scope.
pub fn checked(
    alloc: Global,
    source: &Source,
    built: &Built,
    scope: u32,
    bytes: &[u8],
) -> Result<Reply, AllocError>
    requires built { IsBuiltOf source.now.pieces built.now }
    requires scope { scope < length built.now.program.decls.scopes }
    ensures { IfOk result (SaysChecked built.now.program scope bytes.now) }
{
    accepted_programs_are_counted();
    programs_are_well_formed(&built.program);
    let forests = built.forests.as_slice();
    match certified(alloc, &built.program, forests, scope, bytes) {
        Ok(over) => say_yes(alloc, over),
        Err(why) => refuse_certificate(alloc, why),
    }
}
