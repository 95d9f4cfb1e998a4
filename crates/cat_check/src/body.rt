// What a tree says of one scope.
ghost use Rattle.std.specs.Prelude.{◌≡◌, ◌||◌, List, Some, Ok, flat_map, slice_get};
ghost use Rattle.cat_tree.specs.declared.program.Item.{Item};
ghost use Rattle.cat_scope.specs.Names.{has_none};
ghost use Rattle.cat_scope.specs.WellFormed.{is_internal};
ghost use Rattle.cat_names.specs.Bodies as words;
ghost use Rattle.cat_names.specs.Found.{Tells, where_none};
ghost use Rattle.cat_names.specs.Lines.{all_lines, item_lines, items_about};
ghost use Rattle.cat_check_forms.specs.Tabled.{IsTabled, names_at};
ghost use Rattle.cat_check_exprs.specs.Saying.{behind, nothing_said};
ghost use Rattle.cat_check.specs.Unordered.{without_order};

use crate::by_scope::Items;
use crate::rounds::{rounding, rounds_in};
use cat_check_exprs::{Said, add_item};
use cat_check_forms::Here;
use cat_depend::calls_of;
use cat_names::{Fault, Refusal};
use cat_pos::List;
use cat_scope::Body;
use cat_value::{ItemDecl, Kind, Scope};

/// Whether an item is no function, or an internal one.
fn is_inward(item: &ItemDecl) -> bool
    ensures { result ≡ (has_none item.now.params || is_internal item.now.kind) }
{
    item.params.is_empty() || matches!(item.kind, Kind::Internal)
}

/// That each function is internal.
fn all_inward(items: &[ItemDecl]) -> Result<(), Refusal>
    ensures { Tells result (where_none (flat_map words.outward_function items.now) (Ok tt)) }
{
    for item in items {
        if !is_inward(item) {
            return Err(Refusal::Refused(Fault::Misplaced(item.pos)));
        }
    }
    Ok(())
}

/// What items say of the scope at hand. Each is dropped as soon as it is read, since it takes as much memory as what it
/// says.
fn said_in(here: &Here, items: Items) -> Result<Said, Refusal>
    requires { IsTabled here.now }
    ensures { Tells result (behind nothing_said
        (all_lines (item_lines (names_at here.now) here.now.scope) items)) }
{
    let mut said = Said::new(here.alloc);
    for item in items.into_vec() {
        add_item(here, &item, &mut said)?;
    }
    Ok(said)
}

/// What the items of a tree say of the scope at hand, which is declared so: these are those about it.
pub fn body_of(here: &Here, scope: &Scope, own: Items) -> Result<Body, Refusal>
    requires tabled { IsTabled here.now }
    requires declared { slice_get here.now.decls.now.scopes here.now.scope ≡ Some scope.now }
    ensures { (items : List Item) → own ≡ items_about here.now.decls.now here.now.scope items
        → Tells (without_order result) (words.body_found here.now.decls.now items (here.now.scope, scope.now)) }
{
    let decls = scope.items.as_slice();
    all_inward(decls)?;
    let rounds = rounds_in(here.alloc, own.as_slice())?;
    let rounding = rounding(rounds.as_slice())?;
    let Said {
        defs,
        assertions,
        source,
    } = said_in(here, own)?;
    let calls = calls_of(
        here.alloc,
        decls,
        source.as_slice(),
        defs.as_slice(),
        assertions.as_slice(),
    )?;
    Ok(Body {
        defs,
        assertions,
        source,
        rounding,
        order: List::new(here.alloc),
        calls,
    })
}
