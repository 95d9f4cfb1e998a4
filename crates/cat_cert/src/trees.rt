// Reads the tree of a target.
ghost use Rattle.std.specs.Prelude.{◌≡◌, ◌++◌, [], ◌∷◌, List as Listed, IfOk};
ghost use Rattle.cat_guard.specs.declared.table.TableTarget.{TableTarget as Target};
ghost use Rattle.cat_cert.specs.declared.certificate.CertTree.{CertTree as Placed};
ghost use Rattle.cat_cert.specs.declared.certificate.Version.TheVariants.{Two as VersionTwo, One as VersionOne};
ghost use Rattle.cat_cert.specs.Lines.{Due};
ghost use Rattle.cat_cert.specs.inside.Atoms.{HasAtoms};
ghost use Rattle.cat_cert.specs.inside.States.{AtDue};
ghost use Rattle.cat_cert.specs.inside.Steps.{at_tree};
ghost use Rattle.cat_cert.specs.inside.Outcomes.{IsWithin, ending, Passes};

use crate::line::list_begun;
use crate::nodes::{Nodes, read_nodes};
use crate::place::{Place, next_line};
use crate::{CertRefusal, CertTree, LineNumbers, Version};
use cat_guard::{CitedNames, CitedTree};
use cat_pos::List;
use std::alloc::Global;
use std::collections::BTreeSet;

/// Reads a tree of version 1.
fn read_plain(
    alloc: Global,
    bytes: &[u8],
    place: &mut Place,
    atoms: &BTreeSet<usize>,
) -> Result<CertTree, CertRefusal>
    requires { IsWithin bytes.now place.old }
    ensures within { IfOk result (λ c. IsWithin bytes.now place.new) }
    ensures read { (t : Target) (dues : Listed Due) (trees : Listed Placed) → HasAtoms atoms.now t
        → Passes (ending (at_tree VersionOne t dues trees place.old.line) bytes.now place.old) result
        (λ c. ending (AtDue VersionOne dues (trees ++ c ∷ [])) bytes.now place.new) }
{
    let mut heads = LineNumbers::new(alloc);
    heads.push(place.line)?;
    let none = List::new(alloc);
    let Nodes { nodes, count: _ } = read_nodes(alloc, bytes, place, atoms, none.as_slice())?;
    let tree = CitedTree {
        names: CitedNames::new(alloc),
        main: nodes,
    };
    Ok(CertTree { tree, heads })
}

/// Reads a tree of version 2, with its named trees.
fn read_named(
    alloc: Global,
    bytes: &[u8],
    place: &mut Place,
    atoms: &BTreeSet<usize>,
) -> Result<CertTree, CertRefusal>
    requires { IsWithin bytes.now place.old }
    ensures within { IfOk result (λ c. IsWithin bytes.now place.new) }
    ensures read { (t : Target) (dues : Listed Due) (trees : Listed Placed) → HasAtoms atoms.now t
        → Passes (ending (at_tree VersionTwo t dues trees place.old.line) bytes.now place.old) result
        (λ c. ending (AtDue VersionTwo dues (trees ++ c ∷ [])) bytes.now place.new) }
{
    let mut names = CitedNames::new(alloc);
    let mut named = List::new(alloc);
    let mut heads = LineNumbers::new(alloc);
    while let Some(line) = next_line(bytes, place) {
        let Some(main) = list_begun(line, names.len()) else {
            return Err(CertRefusal::BadLine(place.line));
        };
        heads.push(place.line)?;
        let Nodes { nodes, count } = read_nodes(alloc, bytes, place, atoms, named.as_slice())?;
        if main {
            let tree = CitedTree { names, main: nodes };
            return Ok(CertTree { tree, heads });
        }
        names.push(nodes)?;
        named.push(count)?;
    }
    Err(CertRefusal::Short)
}

/// Reads the tree of a target behind its heading.
pub(crate) fn read_tree(
    alloc: Global,
    version: Version,
    bytes: &[u8],
    place: &mut Place,
    atoms: &BTreeSet<usize>,
) -> Result<CertTree, CertRefusal>
    requires { IsWithin bytes.now place.old }
    ensures within { IfOk result (λ c. IsWithin bytes.now place.new) }
    ensures read { (t : Target) (dues : Listed Due) (trees : Listed Placed) → HasAtoms atoms.now t
        → Passes (ending (at_tree version t dues trees place.old.line) bytes.now place.old) result
        (λ c. ending (AtDue version dues (trees ++ c ∷ [])) bytes.now place.new) }
{
    match version {
        Version::One => read_plain(alloc, bytes, place, atoms),
        Version::Two => read_named(alloc, bytes, place, atoms),
    }
}
