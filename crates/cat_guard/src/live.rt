// The definitions of a target that aren't known to be false, by their groups.
use cat_pos::{List, Numbers};

/// What is live of a group: of the groups that except it those of which something is live, in their order, and those of
/// its own definitions that aren't known to be false, by their numbers among the target's.
#[cycle(live)]
#[derive(Debug, Drop)]
pub struct LiveGroup {
    pub excepted_by: LiveGroups,
    pub defs: Numbers,
}

pub type LiveGroups = List<LiveGroup>;

/// How many groups and definitions there are, or the greatest number.
#[cycle(size)]
fn group_size(group: &LiveGroup) -> usize {
    live_size(&group.excepted_by).saturating_add(group.defs.len())
}

/// How many groups and definitions there are, or the greatest number.
#[cycle(size)]
pub(crate) fn live_size(live: &LiveGroups) -> usize {
    let mut size = live.len();
    for group in live.as_slice() {
        size = size.saturating_add(group_size(group));
    }
    size
}
