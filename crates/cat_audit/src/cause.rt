// What a region hangs on beside the inputs of its scope.
ghost use Rattle.std.specs.Prelude.{◌≡◌, ◌<◌, IfSome, length, slice_get};
ghost use Rattle.cat_audit.specs.Findings.{is_derived, least, derived_in, position_in, undecided_at};
ghost use Rattle.cat_audit.specs.inside.Least.{lesser};

use cat_guard::{Table, Term};
use cat_pos::Pos;
use cat_region::Region;

/// Whether the term of that number is derived.
pub(crate) fn is_derived(terms: &[Term], number: usize) -> bool
    ensures { result ≡ is_derived (slice_get terms.now number) }
{
    match terms.get(number) {
        Some(term) => term.path.is_none(),
        None => false,
    }
}

/// The lesser of two numbers, where they are there.
fn lesser(least: Option<usize>, number: usize) -> Option<usize>
    ensures { result ≡ lesser least number }
{
    match least {
        Some(least) => Some(least.min(number)),
        None => Some(number),
    }
}

/// The least number of a derived term that a region constrains.
fn least_derived(terms: &[Term], region: Region) -> Option<usize>
    ensures { result ≡ least (derived_in terms.now region.narrowings) }
{
    let mut region = region;
    let mut least = None;
    while let Some((number, _, _)) = region.last() {
        region.restore();
        if is_derived(terms, number) {
            least = lesser(least, number);
        }
    }
    least
}

/// The position on which a target's finding in a region hangs beside the inputs: of a function its declaration, and
/// else the first appearance of the first derived term that the region constrains.
pub fn undecided_at(table: &Table, target: u32, region: Region) -> Option<Pos>
    requires { target < length table.now.targets }
    ensures { IfSome (slice_get table.now.targets target) (λ t. result ≡ undecided_at table.now.terms t region) }
{
    let target = table.targets.at(target as usize);
    if target.function {
        return Some(target.pos);
    }
    let terms = table.terms.as_slice();
    let number = least_derived(terms, region)?;
    Some(terms.get(number)?.pos)
}
