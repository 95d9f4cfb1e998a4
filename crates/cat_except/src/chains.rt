// How long the chains of exceptions are.
ghost use Rattle.std.specs.Prelude.{◌≡◌, ◌<◌, ◌≤◌, length, IfOk, IfSome, slice_get};
ghost use Rattle.cat_order.specs.Order.{AreItems, IsOrder};
ghost use Rattle.cat_scope.specs.Chains.{longest_chain};
ghost use Rattle.cat_except.specs.inside.Linking.{lists_of};
ghost use Rattle.cat_except.specs.inside.Chains.{chain_at, target_at, one_longer, IsLimit};

use std::alloc::{AllocError, Global};

/// How many groups a chain of exceptions may have.
const LONGEST_CHAIN: u32 = 256;

/// The chain from a group on, each group of which excepts the next one.
#[derive(Clone, Copy)]
pub struct Chain {
    /// How many groups it has.
    pub length: u32,
    /// The last of its exceptions in source order, or 0 where it has none.
    pub last: u32,
}

/// The chain from a group on, where that of the group that it excepts is known.
fn one_longer(chains: &[Chain], excepted: &[Option<u32>], group: u32) -> Chain
    requires counted { length chains.now ≡ length excepted.now }
    requires group { group < length excepted.now }
    requires target { IfSome (target_at excepted.now group) (λ target. (target < length excepted.now)
        × ((chain_at chains.now target).length ≤ longest_chain)) }
    ensures { result ≡ one_longer chains.now group (target_at excepted.now group) }
{
    match excepted[group as usize] {
        None => Chain { length: 1, last: 0 },
        Some(target) => {
            let rest = chains[target as usize];
            Chain {
                length: rest.length + 1,
                last: group.max(rest.last),
            }
        }
    }
}

/// The group whose exception closes a chain of one group too many, where there is one. In the order each group stands
/// behind the one that it excepts.
pub fn past_limit(
    alloc: Global,
    excepted: &[Option<u32>],
    order: &[u32],
) -> Result<Option<u32>, AllocError>
    requires items { AreItems (lists_of excepted.now) }
    requires order { IsOrder (lists_of excepted.now) order.now }
    ensures { IfOk result (IsLimit excepted.now) }
{
    let mut chains = vec![in alloc; Chain { length: 0, last: 0 }; excepted.len()]?;
    for &group in order {
        let chain = one_longer(&chains, excepted, group);
        if chain.length > LONGEST_CHAIN {
            return Ok(Some(chain.last));
        }
        chains[group as usize] = chain;
    }
    Ok(None)
}
