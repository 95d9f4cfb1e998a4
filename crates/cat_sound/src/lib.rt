//! What holds of the meaning of programs: each law is the contract of a function.
#![tactic(auto)]

mod given;
mod grouping;
mod judging;
mod logs;
mod resting;
mod types;
mod typing;

pub use given::{
    each_item_is_judged, each_variable_is_logged, given_outputs_stand, given_values_stand,
};
pub use grouping::{
    conflicts_name_what_holds, forests_are_judged_by_their_rule, groups_part_their_definitions,
};
pub use judging::{
    conditions_have_values, forests_have_short_chains, groups_are_judged_by_their_rule,
    targets_rest_on_their_definitions,
};
pub use logs::{each_variable_is_logged_once, logs_are_made_of_judgings};
pub use resting::{
    expressions_rest_on_what_they_name, functions_are_judged_by_the_rule,
    positions_change_no_value, scopes_are_run_by_the_rule, the_test_of_trees_decides,
};
pub use types::{typed_expressions_have_low_types, typed_expressions_have_one_type};
pub use typing::{
    conversions_go_on, expressions_go_on, logs_tell_of_called_scopes, operators_go_on,
    parts_are_typed, programs_go_on, settled_programs_go_on,
};
