// Numbers in buckets.
ghost use Rattle.std.specs.Prelude.{◌≡◌, ◌<◌, ℕ, length, IfOk, OnOk};
ghost use Rattle.cat_scope.specs.Names.{AllHave};
ghost use Rattle.cat_verify.specs.inside.Buckets.{AreBuckets, HaveMembers};

use cat_pos::{Numbers, empty_lists};
use std::alloc::{AllocError, Global};

/// A number of a bucket.
#[derive(Clone, Copy)]
pub(crate) struct Member {
    pub bucket: u32,
    pub number: u32,
}

fn add_members(buckets: &mut [Numbers], members: &[Member]) -> Result<(), AllocError>
    requires { AllHave (λ member. member.bucket < length buckets.old) members.now }
    ensures { OnOk result (HaveMembers buckets.old buckets.new members.now) }
{
    for &member in members {
        buckets[member.bucket as usize].push(member.number)?;
    }
    Ok(())
}

/// The numbers of each of so many buckets.
pub(crate) fn in_buckets(
    alloc: Global,
    count: usize,
    members: &[Member],
) -> Result<Vec<Numbers>, AllocError>
    requires { AllHave (λ member. member.bucket < count) members.now }
    ensures { IfOk result (λ buckets. AreBuckets count members.now buckets.items) }
{
    let mut buckets = empty_lists(alloc, count)?;
    add_members(&mut buckets, members)?;
    Ok(buckets)
}
