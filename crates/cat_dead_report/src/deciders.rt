// Which deciders a log has.
ghost use Rattle.std.specs.Prelude.{◌≡◌, slice_get};
ghost use Rattle.std.specs.List.{list_any};
ghost use Rattle.cat_machine.specs.States.{decided, decider_of, position_by};
ghost use Rattle.cat_scope.specs.Targets.{same_inner};
ghost use Rattle.cat_dead_report.specs.Deciders.{has_decider, is_target, stands_at};

use cat_code::Tables;
use cat_dead::is_same;
use cat_machine::LogEntry;
use cat_pos::Pos;
use cat_value::Target;

pub(crate) fn same_inner(one: Option<u32>, other: Option<u32>) -> bool
    ensures { result ≡ same_inner one other }
{
    match one {
        None => other.is_none(),
        Some(one) => match other {
            None => false,
            Some(other) => one == other,
        },
    }
}

fn is_target(one: Target, other: Target) -> bool
    ensures { result ≡ is_target one other }
{
    one.scope == other.scope && (one.item == other.item && same_inner(one.inner, other.inner))
}

/// Whether a definition stands at a position, where there is one.
fn stands_at(pos: Pos, place: Option<Pos>) -> bool
    ensures { result ≡ stands_at pos place }
{
    match place {
        None => false,
        Some(place) => is_same(pos, place),
    }
}

/// Where a definition stands, where there is one.
fn position_by(tables: &Tables, definition: Option<u32>) -> Option<Pos>
    ensures { result ≡ position_by tables.now definition }
{
    match definition {
        None => None,
        Some(definition) => tables.definitions.get(definition as usize).copied(),
    }
}

/// Whether an entry of a log is of a target, and of a definition that stands there.
#[tactic(auto, using(crate::proofs::DeciderLemmas::alone))]
fn is_of(tables: &Tables, entry: LogEntry, target: Target, pos: Pos) -> bool
    ensures { result ≡ has_decider target pos
        (decider_of tables.now (slice_get tables.now.targets entry.target) entry.definition) }
{
    let Some(logged) = tables.targets.get(entry.target as usize) else {
        return false;
    };
    is_target(target, logged.target) && stands_at(pos, position_by(tables, entry.definition))
}

fn some_is_of(tables: &Tables, log: &[LogEntry], target: Target, pos: Pos) -> bool
    ensures { result ≡ list_any (λ e. has_decider target pos
        (decider_of tables.now (slice_get tables.now.targets e.target) e.definition)) log.now }
{
    log.iter().any(|entry| is_of(tables, *entry, target, pos))
}

/// Whether a log has an entry of a target, and of a definition that stands there.
pub(crate) fn has_decider(tables: &Tables, log: &[LogEntry], target: Target, pos: Pos) -> bool
    ensures { result ≡ has_decider target pos (decided tables.now log.now) }
{
    some_is_of(tables, log, target, pos)
}
