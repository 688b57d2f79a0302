//! What executes, as the history alone tells it: looked for from an entry back, with neither phases nor votes kept. The
//! trades of a history follow from its entries and from what executes.
#![tactic(auto)]

mod laws;

pub use laws::{
    answers_tell_executions, begun_limits_stand, empty_is_closed, executions_are_listed,
    executions_stay_in_folds, folds_are_closed, folds_go_on, folds_tell_the_same,
    others_are_not_listed, others_change_one_row, own_rows_are_the_historys, plans_execute_whole,
    positions_are_changes, search_finds_executions, sessions_stay_in_folds,
    trades_are_the_historys, trades_follow_at_each_position, trades_stay_in_folds,
    versions_are_posted_once,
};
