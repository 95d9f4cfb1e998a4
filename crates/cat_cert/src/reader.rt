// Reads a certificate.
ghost use Rattle.std.specs.Prelude.{◌≡◌, ◌^◌, ◌≤◌, All, IfOk, IfErr, Ok as OkSeen, length};
ghost use Rattle.cat_guard.specs.declared.table.Table.{Table as Tabled};
ghost use Rattle.cat_cert.specs.Causes.{IsRead, IsRefused};
ghost use Rattle.cat_cert.specs.Lines.{dues_of};
ghost use Rattle.cat_cert.specs.inside.Outcomes.{whole_ending, Passes};

use crate::dues::{read_end, read_first, read_tables};
use crate::place::first_place;
use crate::{CertRefusal, Certificate};
use cat_guard::Table;
use std::alloc::Global;

/// The atoms of each table are numbered by a `usize`.
fn count_atoms(tables: &[Table])
    ensures { All (λ (table : Tabled). length table.atoms ≤ 2 ^ 64) tables.now }
{
    for table in tables {
        let _count = table.atoms.len();
    }
}

/// Reads the lines from the first on with which a certificate may begin.
fn read(alloc: Global, tables: &[Table], bytes: &[u8]) -> Result<Certificate, CertRefusal>
    ensures { Passes (whole_ending (dues_of tables.now) bytes.now) result (λ c. OkSeen c) }
{
    let Some(start) = first_place(bytes) else {
        return Err(CertRefusal::Short);
    };
    let mut place = start;
    let version = read_first(bytes, &mut place)?;
    let trees = read_tables(alloc, version, tables, bytes, &mut place)?;
    read_end(bytes, &mut place)?;
    Ok(Certificate { version, trees })
}

/// Reads a certificate of these tables, of either version. A refusal names the first line at which no certificate goes
/// on, or with which a tree passes the most leaves. It costs a step for each byte, and for each split a look-up in the
/// set of the target's atoms.
pub fn read_cert(alloc: Global, tables: &[Table], bytes: &[u8]) -> Result<Certificate, CertRefusal>
    ensures read { IfOk result (IsRead tables.now bytes.now) }
    ensures cause { IfErr result (IsRefused tables.now bytes.now) }
{
    count_atoms(tables);
    read(alloc, tables, bytes)
}
