// The table of a target.
ghost use Rattle.std.specs.Prelude.{◌≡◌, ◌<◌, ◌++◌, ℕ, IfOk, OnOk, IfSome, length, slice_get, string_bytes};
ghost use Rattle.cat_search.specs.Searched.{IsSearchOf};
ghost use Rattle.cat_table.specs.Kept.{AreKept};
ghost use Rattle.cat_table.specs.Rows as rows;
ghost use Rattle.cat_table.specs.inside.Here.{naming_at};

use crate::laws::tables_say_what_decides;
use crate::leaves::{leaves_in, nodes_in, push_rows};
use crate::lines::push_line;
use crate::scene::TableScene;
use cat_guard::{Table, TableTarget};
use cat_pos::Files;
use cat_scope::Program;
use cat_search::{Search, searched_trees_ask_atoms_of_the_table};
use std::alloc::{AllocError, Global};

/// The line that names the target.
fn first_line(alloc: Global, table: &Table, target: &TableTarget) -> Result<String, AllocError>
    ensures { IfOk result (λ text. string_bytes text ≡ rows.first_line table.now target.now) }
{
    let scope = table.name.as_str();
    let name = target.name.as_str();
    format!(in alloc; "table {scope}.{name}")
}

/// Adds the line of a rest, where a search has one.
fn push_end(alloc: Global, text: &mut String, search: &Search) -> Result<(), AllocError>
    ensures { OnOk result (string_bytes text.new ≡ string_bytes text.old ++ rows.end_text search.now) }
{
    match search {
        Search::Closed { tree: _, bad: _ } => Ok(()),
        Search::Spent { tree, bad: _ } => {
            let shown = leaves_in(tree);
            let last = format!(in alloc; "rest not shown, budget {shown}")?;
            push_line(text, last.as_str())
        }
    }
}

/// The table of a target by a search for its leaves.
fn written(here: &TableScene, target: u32, search: &Search) -> Result<String, AllocError>
    requires target { target < length here.now.table.now.targets }
    requires searched { IfSome (slice_get here.now.table.now.targets target)
        (λ t. (budget : ℕ) × IsSearchOf here.now.table.now.terms here.now.table.now.atoms t budget search.now) }
    ensures { IfSome (slice_get here.now.table.now.targets target) (λ t. IfOk result (λ text. string_bytes text
        ≡ rows.table_by (naming_at here.now) here.now.table.now t search.now)) }
{
    searched_trees_ask_atoms_of_the_table(here.table);
    let mut text = String::new(here.alloc);
    let judged = here.table.targets.at(target as usize);
    let first = first_line(here.alloc, here.table, judged)?;
    push_line(&mut text, first.as_str())?;
    push_rows(here, &mut text, target, nodes_in(search))?;
    push_end(here.alloc, &mut text, search)?;
    Ok(text)
}

/// The table of a target by a search for its leaves: a line for each leaf in preorder, and where leaves were spent,
/// that the rest isn't shown. Each line ends with a line feed. It costs what is written, and at each split and each
/// leaf a look at what may be live there of the target.
pub fn table_text(
    alloc: Global,
    program: &Program,
    files: &Files,
    table: &Table,
    target: u32,
    search: &Search,
) -> Result<String, AllocError>
    requires scope { table.now.scope < length program.now.decls.scopes }
    requires target { target < length table.now.targets }
    requires searched { IfSome (slice_get table.now.targets target)
        (λ t. (budget : ℕ) × IsSearchOf table.now.terms table.now.atoms t budget search.now) }
    ensures text { IfSome (slice_get table.now.targets target) (λ t. IfOk result (λ text. string_bytes text
        ≡ rows.table_text program.now.decls files.now table.now t search.now)) }
    ensures kept { IfSome (slice_get table.now.targets target) (λ t.
        AreKept (rows.naming program.now.decls files.now table.now) table.now t (rows.rows_of table.now search.now)) }
{
    tables_say_what_decides(table);
    let decls = program.decls();
    let here = TableScene {
        alloc,
        decls,
        items: &decls.scopes.at(table.scope as usize).items,
        files,
        table,
    };
    written(&here, target, search)
}
