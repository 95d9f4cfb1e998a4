// The certificate of a report.
ghost use Rattle.std.specs.Prelude.{◌≡◌, ◌++◌, ◌∷◌, [], OnOk, length, map, string_bytes};
ghost use Rattle.std.specs.List.{list_all};
ghost use Rattle.cat_cert.specs.declared.certificate.Version.TheVariants as version;
ghost use Rattle.cat_cert.specs.Lines.{TargetDue, dues_of, due_lines, heading_line, node_line, tree_lines};
ghost use Rattle.cat_cert.specs.Texts.{text_of};
ghost use Rattle.cat_dead_report.specs.DeadReports as reports;
ghost use Rattle.cat_dead.specs.DeadTexts.{first_line};

use crate::line::TargetLines;
use cat_guard::{Table, TableTarget, TreeNode};
use std::alloc::AllocError;
use std::fmt::Write;

/// Writes the line of a node of a whole tree.
fn push_node(text: &mut String, node: TreeNode) -> Result<(), AllocError>
    ensures { OnOk result (string_bytes text.new
        ≡ string_bytes text.old ++ (node_line (reports.cited_node node) ++ 10 ∷ [])) }
{
    match node {
        TreeNode::Split(atom) => write!(text, "split {atom}\n"),
        TreeNode::Leaf | TreeNode::Rest => text.push_str("leaf\n"),
    }
}

/// Writes a line for each node.
fn push_nodes(text: &mut String, nodes: &[TreeNode]) -> Result<(), AllocError>
    ensures { OnOk result (string_bytes text.new
        ≡ string_bytes text.old ++ text_of (map node_line (map reports.cited_node nodes.now))) }
{
    for &node in nodes {
        push_node(text, node)?;
    }
    Ok(())
}

/// Writes a target with its tree.
fn push_tree(text: &mut String, target: &TableTarget, found: &TargetLines) -> Result<(), AllocError>
    ensures { OnOk result (string_bytes text.new ≡ string_bytes text.old ++ text_of (heading_line (TargetDue target.now)
        ∷ tree_lines version.One (reports.cited_tree found.now))) }
{
    let name = target.name.as_str();
    write!(text, "var {name}\n")?;
    push_nodes(text, found.tree.nodes.as_slice())
}

/// Whether nothing of the trees is left to explore.
pub(crate) fn are_whole(lines: &[TargetLines]) -> bool
    ensures { result ≡ list_all (λ f. f.whole) lines.now }
{
    lines.iter().all(|found| found.whole)
}

/// Writes the certificate of whole trees, one for each target of a table: that of version 1 with another first line.
pub(crate) fn push_certificate(
    text: &mut String,
    table: &Table,
    lines: &[TargetLines],
) -> Result<(), AllocError>
    requires { length lines.now ≡ length table.now.targets }
    ensures { OnOk result (string_bytes text.new ≡ string_bytes text.old ++ text_of (first_line
        ∷ due_lines version.One (dues_of (table.now ∷ [])) (map reports.cited_tree lines.now))) }
{
    let name = table.name.as_str();
    write!(text, "catala-dead 1\nscope {name}\n")?;
    for number in 0..lines.len() {
        push_tree(text, table.targets.at(number), &lines[number])?;
    }
    text.push_str("end\n")
}
