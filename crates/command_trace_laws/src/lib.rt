//! Laws of a trace's lines: what the changes of calls lead to, and what the lines tell of a state.
#![tactic(auto)]

mod laws;

pub use laws::{
    calls_without_effect_change_nothing, changes_give_the_lines_after, changes_lead_back,
    lines_are_those_of_the_report, lines_tell_the_forest, order_is_told_as_lines_are,
    siblings_stand_in_the_kernels_order,
};
