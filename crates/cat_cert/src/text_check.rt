// Certificates whose leaves are covered.
ghost use Rattle.std.specs.Prelude.{◌≡◌, ◌<◌, ◌^◌, length, IfOk, IfErr};
ghost use Rattle.cat_cert.specs.Checked.{HaveClosedTrees, IsChecked, IsCertified, HasCause};
ghost use Rattle.cat_cert.specs.inside.Checkable.{AreOfTables};

use crate::checking::check_trees;
use crate::{CertRefusal, Certificate, read_cert, read_trees_are_those_of_targets};
use cat_guard::Table;
use std::alloc::Global;

/// The length of a text, which is a number.
fn length_of(bytes: &[u8]) -> usize
    ensures value { result ≡ length bytes.now }
    ensures fits { result < 2 ^ 64 }
{
    bytes.len()
}

/// The certificate that a text is, where each of its leaves is covered.
pub(crate) fn certified(
    alloc: Global,
    tables: &[Table],
    bytes: &[u8],
) -> Result<Certificate, CertRefusal>
    ensures closed { IfOk result (λ c. HaveClosedTrees tables.now) }
    ensures checked { IfOk result (IsChecked tables.now bytes.now) }
    ensures trees { IfOk result (λ c. AreOfTables tables.now c.trees) }
    ensures cause { IfErr result (HasCause tables.now bytes.now) }
{
    read_trees_are_those_of_targets();
    // Numbers of lines fit, since the length of the text does.
    length_of(bytes);
    let certificate = read_cert(alloc, tables, bytes)?;
    check_trees(alloc, tables, certificate.trees.as_slice())?;
    Ok(certificate)
}

/// Whether a text is a certificate whose trees are closed. It costs the reading of the text, and for each target a walk
/// through its tree, where a citation costs as many steps as the named tree has nodes.
pub fn check_cert(alloc: Global, tables: &[Table], bytes: &[u8]) -> Result<(), CertRefusal>
    ensures closed { IfOk result (λ u. HaveClosedTrees tables.now) }
    ensures certified { IfOk result (λ u. IsCertified tables.now bytes.now) }
    ensures cause { IfErr result (HasCause tables.now bytes.now) }
{
    let _certificate = certified(alloc, tables, bytes)?;
    Ok(())
}
