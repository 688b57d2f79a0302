//! The laws, each called once, and the definitions at small histories: what executes there, and which trades are left.

ghost use Rattle.std.specs.Prelude.{◌≡◌, List, [], ◌∷◌, map, pos};
ghost use Rattle.command_types.specs.declared.answer.Answer.TheVariants.{Own};
ghost use Rattle.command_types.specs.declared.trade.TradeState.TheVariants.{Live, Ended};
ghost use Rattle.command_types.specs.History.{end_of, longer};
ghost use Rattle.command_types.specs.Folds.{folded};
ghost use Rattle.trade_history.specs.Book.{executions_of};
ghost use Rattle.trade_history.specs.Examples.{ring_compressed, pair_in_cycle_2, ring_waiting, ring_with_later_trade, ring_broken, ring_declined, chain_unchanged, chain_compressed, lines_of};
ghost use Rattle.book_tests.specs.Questions.{nets_at};

use std::test::Fail;
use trade_history::{
    answers_tell_executions, begun_limits_stand, empty_is_closed, executions_are_listed,
    executions_stay_in_folds, folds_are_closed, folds_go_on, folds_tell_the_same,
    others_are_not_listed, others_change_one_row, own_rows_are_the_historys, plans_execute_whole,
    positions_are_changes, search_finds_executions, sessions_stay_in_folds,
    trades_are_the_historys, trades_follow_at_each_position, trades_stay_in_folds,
    versions_are_posted_once,
};

fn the_last_vote_executes()
    ensures execution { executions_of ring_compressed ≡ record { position = 12; cycle = 1; version = 1; ended = 3; cut = 0; made = 0 } ∷ [] }
    ensures trades { lines_of ring_compressed ≡
        record { number = 1; seller = 0; buyer = 1; amount = 10; state = Ended }
        ∷ record { number = 2; seller = 1; buyer = 2; amount = 10; state = Ended }
        ∷ record { number = 3; seller = 2; buyer = 0; amount = 10; state = Ended }
        ∷ [] }
{}

fn a_fold_keeps_the_trades_and_no_execution()
    ensures place { end_of (folded ring_compressed) ≡ 12 }
    ensures executions { executions_of (folded ring_compressed) ≡ [] }
    ensures trades { lines_of (folded ring_compressed) ≡ lines_of ring_compressed }
{}

// Two trades and the second cycle, behind the fold and behind the whole history.
fn changes_behind_a_fold_execute_as_behind_the_history()
    ensures execution { executions_of (longer (folded ring_compressed) pair_in_cycle_2) ≡ record { position = 21; cycle = 2; version = 1; ended = 2; cut = 0; made = 0 } ∷ [] }
    ensures whole { executions_of (longer ring_compressed pair_in_cycle_2) ≡
        record { position = 12; cycle = 1; version = 1; ended = 3; cut = 0; made = 0 }
        ∷ record { position = 21; cycle = 2; version = 1; ended = 2; cut = 0; made = 0 }
        ∷ [] }
    ensures trades { lines_of (longer (folded ring_compressed) pair_in_cycle_2) ≡
        record { number = 1; seller = 0; buyer = 1; amount = 10; state = Ended }
        ∷ record { number = 2; seller = 1; buyer = 2; amount = 10; state = Ended }
        ∷ record { number = 3; seller = 2; buyer = 0; amount = 10; state = Ended }
        ∷ record { number = 4; seller = 0; buyer = 1; amount = 10; state = Ended }
        ∷ record { number = 5; seller = 1; buyer = 0; amount = 10; state = Ended }
        ∷ [] }
{}

// What A owes and is owed at the fold, behind each of the two trades, and behind the cycle.
fn questions_behind_a_fold_are_answered_as_behind_the_history()
    ensures behind { map (nets_at (longer (folded ring_compressed) pair_in_cycle_2)) (12 ∷ 14 ∷ 16 ∷ 21 ∷ []) ≡
        Own 0 0 (pos 0) ∷ Own 10 0 (pos 10) ∷ Own 10 10 (pos 0) ∷ Own 0 0 (pos 0) ∷ [] }
    ensures whole { map (nets_at (longer ring_compressed pair_in_cycle_2)) (12 ∷ 14 ∷ 16 ∷ 21 ∷ []) ≡
        Own 0 0 (pos 0) ∷ Own 10 0 (pos 10) ∷ Own 10 10 (pos 0) ∷ Own 0 0 (pos 0) ∷ [] }
{}

fn a_missing_vote_executes_nothing()
    ensures { executions_of ring_waiting ≡ [] }
{}

fn a_later_trade_stays()
    ensures execution { executions_of ring_with_later_trade ≡ record { position = 14; cycle = 1; version = 1; ended = 3; cut = 0; made = 0 } ∷ [] }
    ensures trades { lines_of ring_with_later_trade ≡
        record { number = 1; seller = 0; buyer = 1; amount = 10; state = Ended }
        ∷ record { number = 2; seller = 1; buyer = 2; amount = 10; state = Ended }
        ∷ record { number = 3; seller = 2; buyer = 0; amount = 10; state = Ended }
        ∷ record { number = 4; seller = 0; buyer = 2; amount = 5; state = Live }
        ∷ [] }
{}

fn an_ended_trade_stops_the_execution()
    ensures execution { executions_of ring_broken ≡ [] }
    ensures trades { lines_of ring_broken ≡
        record { number = 1; seller = 0; buyer = 1; amount = 10; state = Ended }
        ∷ record { number = 2; seller = 1; buyer = 2; amount = 10; state = Live }
        ∷ record { number = 3; seller = 2; buyer = 0; amount = 10; state = Live }
        ∷ [] }
{}

fn votes_of_another_version_execute_nothing()
    ensures { executions_of ring_declined ≡ [] }
{}

fn a_posting_that_touches_nobody_executes()
    ensures execution { executions_of chain_unchanged ≡ record { position = 7; cycle = 1; version = 1; ended = 0; cut = 0; made = 0 } ∷ [] }
    ensures trades { lines_of chain_unchanged ≡
        record { number = 1; seller = 0; buyer = 1; amount = 10; state = Live }
        ∷ record { number = 2; seller = 1; buyer = 2; amount = 7; state = Live }
        ∷ [] }
{}

fn a_plan_cuts_ends_and_makes()
    ensures execution { executions_of chain_compressed ≡ record { position = 10; cycle = 1; version = 1; ended = 1; cut = 1; made = 1 } ∷ [] }
    ensures trades { lines_of chain_compressed ≡
        record { number = 1; seller = 0; buyer = 1; amount = 3; state = Live }
        ∷ record { number = 2; seller = 1; buyer = 2; amount = 7; state = Ended }
        ∷ record { number = 3; seller = 0; buyer = 2; amount = 7; state = Live }
        ∷ [] }
{}

#[test]
fn small_histories_execute_as_written(_rt: HostRuntime) -> Result<(), Fail> {
    the_last_vote_executes();
    a_fold_keeps_the_trades_and_no_execution();
    changes_behind_a_fold_execute_as_behind_the_history();
    questions_behind_a_fold_are_answered_as_behind_the_history();
    a_missing_vote_executes_nothing();
    a_later_trade_stays();
    an_ended_trade_stops_the_execution();
    votes_of_another_version_execute_nothing();
    a_posting_that_touches_nobody_executes();
    a_plan_cuts_ends_and_makes();
    Ok(())
}

#[test]
fn the_laws_can_be_called(_rt: HostRuntime) -> Result<(), Fail> {
    empty_is_closed();
    trades_are_the_historys();
    answers_tell_executions();
    search_finds_executions();
    plans_execute_whole();
    others_change_one_row();
    own_rows_are_the_historys();
    executions_are_listed();
    others_are_not_listed();
    positions_are_changes();
    trades_follow_at_each_position();
    versions_are_posted_once();
    begun_limits_stand();
    folds_go_on();
    folds_are_closed();
    trades_stay_in_folds();
    executions_stay_in_folds();
    folds_tell_the_same();
    sessions_stay_in_folds();
    Ok(())
}
