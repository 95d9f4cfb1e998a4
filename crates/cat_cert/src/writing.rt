// The text of a certificate.
ghost use Rattle.std.specs.Prelude.{◌≡◌, ◌++◌, ◌∷◌, [], List as Listed, IfOk, OnOk, map, length, string_bytes};
ghost use Rattle.cat_guard.specs.declared.tree.CitedTree.{CitedTree as CitedSeen};
ghost use Rattle.cat_cert.specs.declared.certificate.Version.TheVariants as version;
ghost use Rattle.cat_cert.specs.Lines.{Due, ScopeDue, TargetDue, node_line, named_lines, tree_lines, heading_line};
ghost use Rattle.cat_cert.specs.Lines.{due_lines, targets_of, version_number};
ghost use Rattle.cat_cert.specs.Texts.{text_of, certificate_text};

use crate::certificate::Version;
use cat_guard::{CitedNames, CitedNode, CitedTree, Table, TableTarget};
use std::alloc::{AllocError, Global};
use std::fmt::Write;

/// Writes the line of a node.
fn push_node(text: &mut String, node: CitedNode) -> Result<(), AllocError>
    ensures { OnOk result (string_bytes text.new ≡ string_bytes text.old ++ node_line node ++ 10 ∷ []) }
{
    match node {
        CitedNode::Split(atom) => write!(text, "split {atom}\n"),
        CitedNode::Leaf => text.push_str("leaf\n"),
        CitedNode::Cite(name) => write!(text, "cite {name}\n"),
    }
}

/// Writes a line for each node.
fn push_nodes(text: &mut String, nodes: &[CitedNode]) -> Result<(), AllocError>
    ensures { OnOk result (string_bytes text.new ≡ string_bytes text.old ++ text_of (map node_line nodes.now)) }
{
    for &node in nodes {
        push_node(text, node)?;
    }
    Ok(())
}

/// Writes a named tree behind its name.
fn push_name(text: &mut String, name: usize, nodes: &[CitedNode]) -> Result<(), AllocError>
    ensures { OnOk result (string_bytes text.new
        ≡ string_bytes text.old ++ text_of (named_lines name (nodes.now ∷ []))) }
{
    write!(text, "name {name}\n")?;
    push_nodes(text, nodes)
}

/// Writes the named trees of a tree.
fn push_names(text: &mut String, names: &CitedNames) -> Result<(), AllocError>
    ensures { OnOk result (string_bytes text.new ≡ string_bytes text.old ++ text_of (named_lines 0 names.now)) }
{
    for name in 0..names.len() {
        push_name(text, name, names.at(name).as_slice())?;
    }
    Ok(())
}

/// Writes a tree behind its named trees.
fn push_cited(text: &mut String, tree: &CitedTree) -> Result<(), AllocError>
    ensures { OnOk result (string_bytes text.new
        ≡ string_bytes text.old ++ text_of (tree_lines version.Two tree.now)) }
{
    push_names(text, &tree.names)?;
    text.push_str("tree\n")?;
    push_nodes(text, tree.main.as_slice())
}

/// Writes a tree: its nodes, or in version 2 its named trees before them.
fn push_tree(text: &mut String, version: Version, tree: &CitedTree) -> Result<(), AllocError>
    ensures { OnOk result (string_bytes text.new ≡ string_bytes text.old ++ text_of (tree_lines version tree.now)) }
{
    match version {
        Version::One => push_nodes(text, tree.main.as_slice()),
        Version::Two => push_cited(text, tree),
    }
}

/// Writes a target with its tree.
fn push_target(
    text: &mut String,
    version: Version,
    target: &TableTarget,
    tree: &CitedTree,
) -> Result<(), AllocError>
    ensures { OnOk result (string_bytes text.new ≡ string_bytes text.old
        ++ text_of (heading_line (TargetDue target.now) ∷ tree_lines version tree.now)) }
{
    let name = target.name.as_str();
    write!(text, "var {name}\n")?;
    push_tree(text, version, tree)
}

/// Writes a scope with its targets and their trees, in front of what is due behind it.
fn push_table(
    text: &mut String,
    version: Version,
    table: &Table,
    trees: &[CitedTree],
) -> Result<(), AllocError>
    requires { length trees.now ≡ length table.now.targets }
    ensures { (more : Listed Due) (rest : Listed CitedSeen) → OnOk result (string_bytes text.new
        ++ text_of (due_lines version more rest) ≡ string_bytes text.old
        ++ text_of (due_lines version (ScopeDue table.now.name ∷ map TargetDue table.now.targets ++ more)
        (trees.now ++ rest))) }
{
    let name = table.name.as_str();
    write!(text, "scope {name}\n")?;
    for at in 0..table.targets.len() {
        push_target(text, version, table.targets.at(at), &trees[at])?;
    }
    Ok(())
}

/// The number of a version.
fn version_number(version: Version) -> u32
    ensures { result ≡ version_number version }
{
    match version {
        Version::One => 1,
        Version::Two => 2,
    }
}

/// The text of the certificate that has these trees, one for each target of the tables.
pub fn certificate_text(
    alloc: Global,
    version: Version,
    tables: &[Table],
    trees: &[CitedTree],
) -> Result<String, AllocError>
    requires { length trees.now ≡ length (targets_of tables.now) }
    ensures { IfOk result (λ text. string_bytes text ≡ certificate_text version tables.now trees.now) }
{
    let mut text = String::new(alloc);
    let number = version_number(version);
    write!(text, "catala-certificate {number}\n")?;
    let mut at = 0;
    for table in tables {
        let end = at + table.targets.len();
        push_table(&mut text, version, table, &trees[at..end])?;
        at = end;
    }
    text.push_str("end\n")?;
    Ok(text)
}
