//! What depends on what: the dependencies of types, the order of items and of scopes, chains of calls, the way round a
//! cycle, and the scopes that one calls, directly or not.
#![tactic(auto)]

mod chains;
mod cycle;
mod items;
mod laws;
mod naming;
mod reached;
mod refusal;
mod scopes;
mod types;

pub use cycle::next_on_cycle;
pub use items::{item_order, long_function};
pub use laws::{audited_scopes_end_with_the_audited_one, audited_scopes_have_what_they_call};
pub use reached::audited_scopes;
pub use refusal::CallRefusal;
pub use scopes::{calls_of, long_scope, scope_order};
pub use types::type_dependencies;
