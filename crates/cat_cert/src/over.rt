// Certificates that are written over in version 2.
ghost use Rattle.std.specs.Prelude.{◌≡◌, IsTrue, IfOk, IfErr, map, string_bytes};
ghost use Rattle.std.specs.Option.{option_map};
ghost use Rattle.cat_scope.specs.Names.{AllHave};
ghost use Rattle.cat_guard.specs.Trees.{tree_of, expanded};
ghost use Rattle.cat_walk.specs.Sizes.{is_small};
ghost use Rattle.cat_cert.specs.Checked.{HaveClosedTrees, HasCause, IsOver, text_over};
ghost use Rattle.cat_cert.specs.inside.Checkable.{AreOfTables};

use crate::text_check::certified;
use crate::{CertRefusal, CertTree, Version, write_cert};
use cat_guard::{CaseTree, Table};
use cat_pos::List;
use cat_walk::{cited_trees_are_whole, expand};
use std::alloc::{AllocError, Global};

/// Trees with their citations replaced.
fn expand_trees(alloc: Global, trees: &[CertTree]) -> Result<List<CaseTree>, AllocError>
    requires { AllHave (λ c. IsTrue (is_small (expanded c.tree))) trees.now }
    ensures { IfOk result (λ made. map (λ t. tree_of t.nodes) made ≡ map (λ c. expanded c.tree) trees.now) }
{
    let mut made = List::new(alloc);
    for tree in trees {
        let case = expand(alloc, &tree.tree)?;
        made.push(case)?;
    }
    Ok(made)
}

/// The text of version 2 with the same trees.
fn text_over(alloc: Global, tables: &[Table], trees: &[CertTree]) -> Result<String, AllocError>
    requires { AreOfTables tables.now trees.now }
    ensures { IfOk result (λ text. string_bytes text ≡ text_over tables.now trees.now) }
{
    cited_trees_are_whole();
    let cases = expand_trees(alloc, trees)?;
    write_cert(alloc, tables, cases.as_slice())
}

/// Whether a text is a certificate whose trees are closed, with the text of version 2 where it is of version 1.
pub fn check_over(
    alloc: Global,
    tables: &[Table],
    bytes: &[u8],
) -> Result<Option<String>, CertRefusal>
    ensures closed { IfOk result (λ o. HaveClosedTrees tables.now) }
    ensures over { IfOk result (λ o. IsOver tables.now bytes.now (option_map string_bytes o)) }
    ensures cause { IfErr result (HasCause tables.now bytes.now) }
{
    let certificate = certified(alloc, tables, bytes)?;
    match certificate.version {
        Version::One => {
            let text = text_over(alloc, tables, certificate.trees.as_slice())?;
            Ok(Some(text))
        }
        Version::Two => Ok(None),
    }
}
