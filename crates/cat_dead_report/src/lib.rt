//! What the runs of a scope, and searches for its trees, say of each of its definitions: on what it decides, or that it
//! never does, with a certificate where all trees are whole.
#![tactic(auto)]

mod certificate;
mod deciders;
mod deciding;
mod faultless;
mod forms;
mod found;
mod hanging;
mod line;
mod places;
mod plain_scopes;
mod report;
mod scene;
mod status;
mod target;
mod text;
mod tried;

pub use line::{DeadLine, DeadLines, ReportLines, TargetLines};
pub use plain_scopes::plain_scopes_have_decided_lines;
pub use report::{DeadReport, dead_report};
