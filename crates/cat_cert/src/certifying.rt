// The certificate of whole trees.
ghost use Rattle.std.specs.Prelude.{◌≡◌, IsTrue, IfOk, map, length, string_bytes};
ghost use Rattle.cat_scope.specs.Names.{AllHave};
ghost use Rattle.cat_guard.specs.Trees.{tree_of};
ghost use Rattle.cat_walk.specs.Sharing.{is_whole_tree};
ghost use Rattle.cat_cert.specs.declared.certificate.Version.TheVariants as version;
ghost use Rattle.cat_cert.specs.Lines.{targets_of};
ghost use Rattle.cat_cert.specs.Certifiable.{shared_tree};
ghost use Rattle.cat_cert.specs.Texts as texts;

use crate::certificate::Version;
use crate::writing::certificate_text;
use cat_guard::{CaseTree, CitedTree, Table};
use cat_pos::List;
use cat_walk::share;
use std::alloc::{AllocError, Global};

/// A whole tree with its equal parts written once.
fn share_tree(alloc: Global, tree: &CaseTree) -> Result<CitedTree, AllocError>
    requires { IsTrue (is_whole_tree (tree_of tree.now.nodes)) }
    ensures { IfOk result (λ cited. cited ≡ shared_tree (tree_of tree.now.nodes)) }
{
    share(alloc, tree)
}

/// Whole trees with their equal parts written once.
fn share_trees(alloc: Global, trees: &[CaseTree]) -> Result<List<CitedTree>, AllocError>
    requires { AllHave (λ t. IsTrue (is_whole_tree (tree_of t.nodes))) trees.now }
    ensures { IfOk result (λ made. made ≡ map (λ t. shared_tree (tree_of t.nodes)) trees.now) }
{
    let mut made = List::new(alloc);
    for tree in trees {
        let cited = share_tree(alloc, tree)?;
        made.push(cited)?;
    }
    Ok(made)
}

/// The certificate of whole trees, one for each target of the tables. It costs what sharing them costs, and a step for
/// each node that is written.
pub fn write_cert(alloc: Global, tables: &[Table], trees: &[CaseTree]) -> Result<String, AllocError>
    requires count { length trees.now ≡ length (targets_of tables.now) }
    requires whole { AllHave (λ t. IsTrue (is_whole_tree (tree_of t.nodes))) trees.now }
    ensures { IfOk result (λ text. string_bytes text ≡ texts.certificate_text version.Two tables.now
        (map (λ t. shared_tree (tree_of t.nodes)) trees.now)) }
{
    let made = share_trees(alloc, trees)?;
    certificate_text(alloc, Version::Two, tables, made.as_slice())
}
