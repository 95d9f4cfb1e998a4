//! Certificates of audits: what their lines are, how they are written and read, and whether one covers each target of a
//! scope and of those that it calls.
#![tactic(auto)]

mod asked;
mod certificate;
mod certifying;
mod checking;
mod dues;
mod heights;
mod laws;
mod line;
mod lines;
mod nodes;
mod over;
mod place;
mod reader;
mod refusal;
mod scope_check;
mod scope_laws;
mod text_check;
mod text_laws;
mod trees;
mod writing;

pub use certificate::{CertTree, CertTrees, Certificate, LineNumbers, MOST_LEAVES, Version};
pub use certifying::write_cert;
pub use heights::highest;
pub use laws::{
    certified_texts_are_not_refused, limit_is_as_stated,
    what_is_written_of_covered_trees_is_certified, what_is_written_over_is_read_again,
};
pub use over::check_over;
pub use place::feed_from;
pub use reader::read_cert;
pub use refusal::CertRefusal;
pub use scope_check::certified;
pub use scope_laws::{
    audited_scopes_have_one_list_of_tables, certified_scopes_are_not_refused,
    closed_tables_leave_no_gap, what_is_written_over_is_certified_again,
};
pub use text_check::check_cert;
pub use text_laws::{
    atoms_of_targets_are_there, read_texts_are_not_refused, read_trees_are_those_of_targets,
    shared_trees_are_certificates, texts_are_read_in_one_way, written_certificates_are_read,
};
pub use writing::certificate_text;
