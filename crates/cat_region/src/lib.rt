//! Regions: which values of some dimensions agree with the cuts that were made in them, and what is decided of a cut.
#![tactic(auto)]

mod choice;
mod cut;
mod dim;
mod extent;
mod laws;
mod narrowing;
mod point;
mod region;
mod sides;

pub use cut::{Cut, Threshold};
pub use dim::Dim;
pub use laws::{
    decisions_are_exact, narrowed_regions_admit_what_agrees, narrowing_keeps_what_is_decided,
    points_are_admitted, regions_are_sound, the_last_narrowing_is_undone,
    valuations_are_admitted_by_dimensions, what_is_decided_is_so,
};
pub use narrowing::Narrowing;
pub use point::Point;
pub use region::Region;
pub use sides::{to_false_side, undo_all};
