// Reads a certificate of dead definitions.
ghost use Rattle.std.specs.Prelude.{◌≡◌, ◌≤◌, ◌++◌, codes, drop, length, map, IfOk, IfErr};
ghost use Rattle.std.specs.Option.{option_map};
ghost use Rattle.std.specs.Str.{bytes_eq};
ghost use Rattle.cat_cert.specs.declared.certificate.Version.TheVariants as version;
ghost use Rattle.cat_cert.specs.Lines.{TargetDue};
ghost use Rattle.cat_cert.specs.ReadTrees.{AreReadTrees};
ghost use Rattle.cat_cert.specs.inside.Checkable.{last_line};
ghost use Rattle.cat_dead.specs.DeadTexts.{first_line, is_first, IsDeadRead, IsDeadRefused};
ghost use Rattle.cat_dead.specs.inside.Reading.{IsLineAt, HasNoCertificate, IsCertificateOf};

use cat_cert::{CertRefusal, Certificate, feed_from, read_cert, read_trees_are_those_of_targets};
use cat_guard::Table;
use cat_pos::List;
use std::alloc::{AllocError, Global};
use std::slice;

/// The line that begins there, without its line feed.
fn line_from(bytes: &[u8], start: usize) -> Option<&[u8]>
    requires { start ≤ length bytes.now }
    ensures { IsLineAt bytes.now start (option_map (λ line. line.now) result) }
{
    let end = feed_from(bytes, start);
    if end == bytes.len() {
        return None;
    }
    Some(&bytes[start..end])
}

/// Whether a certificate of dead definitions may begin with a line.
fn begins(line: &[u8]) -> bool
    ensures { result ≡ is_first line.now }
{
    line.starts_with("catala-dead".as_bytes())
}

/// Whether a line is the first one of such a certificate.
fn is_first_line(line: &[u8]) -> bool
    ensures { result ≡ bytes_eq line.now first_line }
{
    line == "catala-dead 1".as_bytes()
}

/// A text behind which the first line of a certificate of version 1 stands, and what others have from there on.
fn with_first_line(
    alloc: Global,
    text: List<u8>,
    bytes: &[u8],
    at: usize,
) -> Result<List<u8>, AllocError>
    requires { at ≤ length bytes.now }
    ensures { IfOk result (λ made. made ≡ text ++ (codes "catala-certificate 1" ++ drop at bytes.now)) }
{
    let mut made = text;
    made.append(List::from_slice(alloc, "catala-certificate 1".as_bytes())?)?;
    made.append(List::from_slice(alloc, &bytes[at..])?)?;
    Ok(made)
}

/// A text as a certificate of version 1 with the same lines: nothing stands in those that are passed over, and the
/// first one behind them is that of version 1.
fn as_certificate(alloc: Global, bytes: &[u8]) -> Result<List<u8>, CertRefusal>
    ensures text { IfOk result (IsCertificateOf bytes.now) }
    ensures cause { IfErr result (HasNoCertificate bytes.now) }
{
    let mut text = List::new(alloc);
    let mut at = 0;
    while let Some(line) = line_from(bytes, at) {
        if begins(line) {
            if !is_first_line(line) {
                return Err(CertRefusal::BadLine(text.len() + 1));
            }
            let made = with_first_line(alloc, text, bytes, at + line.len())?;
            return Ok(made);
        }
        text.push(b'\n')?;
        at += line.len() + 1;
    }
    Err(CertRefusal::Short)
}

/// Reads a certificate of dead definitions of a table. A refusal names the first line at which none goes on.
pub(crate) fn read_dead(
    alloc: Global,
    table: &Table,
    bytes: &[u8],
) -> Result<Certificate, CertRefusal>
    ensures read { IfOk result (IsDeadRead table.now bytes.now) }
    ensures trees { IfOk result (λ c. AreReadTrees last_line version.One (map TargetDue table.now.targets) c.trees) }
    ensures cause { IfErr result (IsDeadRefused table.now bytes.now) }
{
    // The atoms of the table and the bytes of the text are numbered by a `usize`.
    let _atoms = table.atoms.len();
    let _bytes = bytes.len();
    read_trees_are_those_of_targets();
    let text = as_certificate(alloc, bytes)?;
    let _text = text.len();
    read_cert(alloc, slice::from_ref(table), text.as_slice())
}
