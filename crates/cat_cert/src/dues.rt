// Reads what is due: the scopes and targets of tables.
ghost use Rattle.std.specs.Prelude.{◌≡◌, ◌++◌, ◌<◌, [], ◌∷◌, map, List as Listed, IfOk, Ok as OkSeen, length};
ghost use Rattle.cat_cert.specs.declared.certificate.CertTree.{CertTree as Placed};
ghost use Rattle.cat_cert.specs.declared.certificate.Version.{Version as Versions};
ghost use Rattle.cat_cert.specs.Lines.{Due, TargetDue, dues_of, heading_word, due_name};
ghost use Rattle.cat_cert.specs.inside.States.{First, AtDue};
ghost use Rattle.cat_cert.specs.inside.Steps.{after_heading, heading_refusal};
ghost use Rattle.cat_cert.specs.inside.Outcomes.{IsWithin, ending, Passes};

use crate::asked::atoms_of;
use crate::line::{begins, is, is_heading, is_text};
use crate::place::{Place, next_line};
use crate::trees::read_tree;
use crate::{CertRefusal, CertTree, CertTrees, Version};
use cat_guard::{Table, TableTarget};
use std::alloc::Global;

/// Reads the first line.
pub(crate) fn read_first(bytes: &[u8], place: &mut Place) -> Result<Version, CertRefusal>
    requires { IsWithin bytes.now place.old }
    ensures within { IfOk result (λ v. IsWithin bytes.now place.new) }
    ensures read { (dues : Listed Due) → Passes (ending (First dues) bytes.now place.old) result
        (λ v. ending (AtDue v dues []) bytes.now place.new) }
{
    let Some(line) = next_line(bytes, place) else {
        return Err(CertRefusal::Short);
    };
    if is(line, "catala-certificate 1") {
        return Ok(Version::One);
    }
    if is(line, "catala-certificate 2") {
        return Ok(Version::Two);
    }
    Err(CertRefusal::BadLine(place.line))
}

/// Why a line is no heading of that word and the name that is due.
fn no_heading(line: &[u8], word: &str, number: usize) -> CertRefusal
    ensures { result ≡ heading_refusal word.now number line.now }
{
    if !begins(line, word) {
        return CertRefusal::BadLine(number);
    }
    if is_text(line) {
        CertRefusal::WrongName(number)
    } else {
        CertRefusal::BadLine(number)
    }
}

/// Reads the heading of something due.
fn read_heading(bytes: &[u8], place: &mut Place, word: &str, name: &str) -> Result<(), CertRefusal>
    requires { IsWithin bytes.now place.old }
    ensures within { IfOk result (λ u. IsWithin bytes.now place.new) }
    ensures read { (v : Versions) (due : Due) (dues : Listed Due) (trees : Listed Placed) → heading_word due ≡ word.now
        → due_name due ≡ name.now → Passes (ending (AtDue v (due ∷ dues) trees) bytes.now place.old) result
        (λ u. ending (after_heading v due dues trees place.new.line) bytes.now place.new) }
{
    let Some(line) = next_line(bytes, place) else {
        return Err(CertRefusal::Short);
    };
    if is_heading(line, word, name) {
        return Ok(());
    }
    Err(no_heading(line, word, place.line))
}

/// Reads a target: its heading and its tree.
fn read_target(
    alloc: Global,
    version: Version,
    target: &TableTarget,
    bytes: &[u8],
    place: &mut Place,
) -> Result<CertTree, CertRefusal>
    requires { IsWithin bytes.now place.old }
    ensures within { IfOk result (λ c. IsWithin bytes.now place.new) }
    ensures read { (dues : Listed Due) (trees : Listed Placed)
        → Passes (ending (AtDue version (TargetDue target.now ∷ dues) trees) bytes.now place.old) result
        (λ c. ending (AtDue version dues (trees ++ c ∷ [])) bytes.now place.new) }
{
    read_heading(bytes, place, "var ", target.name.as_str())?;
    let atoms = atoms_of(alloc, target)?;
    read_tree(alloc, version, bytes, place, &atoms)
}

/// Reads targets, and adds their trees.
fn read_targets(
    alloc: Global,
    version: Version,
    targets: &[TableTarget],
    bytes: &[u8],
    place: &mut Place,
    trees: &mut CertTrees,
) -> Result<(), CertRefusal>
    requires { IsWithin bytes.now place.old }
    ensures within { IfOk result (λ u. IsWithin bytes.now place.new) }
    ensures read { (dues : Listed Due)
        → Passes (ending (AtDue version (map TargetDue targets.now ++ dues) trees.old) bytes.now place.old) result
        (λ u. ending (AtDue version dues trees.new) bytes.now place.new) }
{
    for target in targets {
        let tree = read_target(alloc, version, target, bytes, place)?;
        trees.push(tree)?;
    }
    Ok(())
}

/// Reads the scopes and targets of tables.
pub(crate) fn read_tables(
    alloc: Global,
    version: Version,
    tables: &[Table],
    bytes: &[u8],
    place: &mut Place,
) -> Result<CertTrees, CertRefusal>
    requires { IsWithin bytes.now place.old }
    ensures within { IfOk result (λ trees. IsWithin bytes.now place.new) }
    ensures read { Passes (ending (AtDue version (dues_of tables.now) []) bytes.now place.old) result
        (λ trees. ending (AtDue version [] trees) bytes.now place.new) }
{
    let mut trees = CertTrees::new(alloc);
    for table in tables {
        read_heading(bytes, place, "scope ", table.name.as_str())?;
        read_targets(
            alloc,
            version,
            table.targets.as_slice(),
            bytes,
            place,
            &mut trees,
        )?;
    }
    Ok(trees)
}

/// Reads the last line, behind which nothing may follow.
pub(crate) fn read_end(bytes: &[u8], place: &mut Place) -> Result<(), CertRefusal>
    requires { IsWithin bytes.now place.old }
    ensures { (v : Versions) (trees : Listed Placed) → Passes (ending (AtDue v [] trees) bytes.now place.old) result
        (λ u. OkSeen (record { version = v; trees = trees })) }
{
    let Some(line) = next_line(bytes, place) else {
        return Err(CertRefusal::Short);
    };
    if !is(line, "end") {
        return Err(CertRefusal::BadLine(place.line));
    }
    if place.at < bytes.len() {
        return Err(CertRefusal::Trailing(place.line + 1));
    }
    Ok(())
}
