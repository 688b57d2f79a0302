//! The laws, each called once, and small histories worked by hand: whether they are legal, what their last change is
//! answered, and each member's position and the gross just before and just after it.

ghost use Rattle.std.specs.Prelude.{◌≡◌, List, [], ◌∷◌, pos, negsuc};
ghost use Rattle.command_types.specs.declared.answer.Answer.TheVariants.{Executed, Nothing};
ghost use Rattle.command_types.specs.Bases.{base_in, written, CanBeWritten, Fits};
ghost use Rattle.command_types.specs.Folds.{folded};
ghost use Rattle.command_types.specs.History.{IsLegal};
ghost use Rattle.trade_history.specs.Examples.{three_dealers, ring_compressed, ring_with_later_trade};
ghost use Rattle.cycle_laws.specs.Bases.{IsWritable};
ghost use Rattle.cycle_laws.specs.Histories.{IsMarketBase, IsMarketHistory};
ghost use Rattle.cycle_laws.specs.Examples.{chain_in_hybrid, chain_in_conservative, nets_after, gross_after, answers_after};

use cycle_laws::{
    empty_begins_markets, empty_is_writable, executions_follow_the_posting, fitting_is_writable,
    folds_are_writable, folds_begin_markets, nets_stay_at_executions, postings_are_least,
    spellings_stand_for_bases, writable_can_be_written, writable_comes_back, writable_fits,
};
use posting::{plan_stays, posting_can_be_executed};
use std::test::Fail;

fn a_ring_falls_to_nothing()
    ensures told { answers_after 11 ring_compressed ≡ Executed 1 1 3 0 0 ∷ [] }
    ensures nets { nets_after 11 ring_compressed ≡ pos 0 ∷ pos 0 ∷ pos 0 ∷ [] }
    ensures nets_stay { nets_after 12 ring_compressed ≡ pos 0 ∷ pos 0 ∷ pos 0 ∷ [] }
    ensures gross { gross_after 11 ring_compressed ≡ 30 }
    ensures gross_falls { gross_after 12 ring_compressed ≡ 0 }
{}

fn a_later_trade_counts_before_and_after()
    ensures told { answers_after 13 ring_with_later_trade ≡ Executed 1 1 3 0 0 ∷ [] }
    ensures nets { nets_after 13 ring_with_later_trade ≡ pos 5 ∷ pos 0 ∷ negsuc 4 ∷ [] }
    ensures nets_stay { nets_after 14 ring_with_later_trade ≡ pos 5 ∷ pos 0 ∷ negsuc 4 ∷ [] }
    ensures gross { gross_after 13 ring_with_later_trade ≡ 35 }
    ensures gross_falls { gross_after 14 ring_with_later_trade ≡ 5 }
{}

fn a_member_is_passed_by()
    ensures told { answers_after 9 chain_in_hybrid ≡ Executed 1 1 1 1 1 ∷ [] }
    ensures nets { nets_after 9 chain_in_hybrid ≡ pos 10 ∷ negsuc 2 ∷ negsuc 6 ∷ [] }
    ensures nets_stay { nets_after 10 chain_in_hybrid ≡ pos 10 ∷ negsuc 2 ∷ negsuc 6 ∷ [] }
    ensures gross { gross_after 9 chain_in_hybrid ≡ 17 }
    ensures gross_falls { gross_after 10 chain_in_hybrid ≡ 10 }
{}

fn nothing_falls_and_nothing_grows()
    ensures told { answers_after 6 chain_in_conservative ≡ Nothing 1 1 ∷ [] }
    ensures nets { nets_after 6 chain_in_conservative ≡ pos 10 ∷ negsuc 2 ∷ negsuc 6 ∷ [] }
    ensures nets_stay { nets_after 7 chain_in_conservative ≡ pos 10 ∷ negsuc 2 ∷ negsuc 6 ∷ [] }
    ensures gross { gross_after 6 chain_in_conservative ≡ 17 }
    ensures gross_stays { gross_after 7 chain_in_conservative ≡ 17 }
{}

fn these_histories_are_legal()
    ensures ring { IsLegal ring_compressed }
    ensures later { IsLegal ring_with_later_trade }
    ensures hybrid { IsLegal chain_in_hybrid }
    ensures conservative { IsLegal chain_in_conservative }
{}

fn the_laws_have_a_history()
    ensures first { IsMarketHistory three_dealers chain_in_hybrid }
    ensures later { IsMarketBase three_dealers (folded chain_in_hybrid).base.state }
{}

fn the_laws_have_a_base()
    ensures writable { IsWritable three_dealers (folded chain_in_hybrid).base.state }
    ensures written { CanBeWritten (written (folded chain_in_hybrid).base) }
    ensures fits { Fits three_dealers (written (folded chain_in_hybrid).base) }
    ensures back { base_in three_dealers (written (folded chain_in_hybrid).base) ≡ (folded chain_in_hybrid).base }
{}

#[test]
fn nets_stay_in_small_histories(_rt: HostRuntime) -> Result<(), Fail> {
    a_ring_falls_to_nothing();
    a_later_trade_counts_before_and_after();
    a_member_is_passed_by();
    nothing_falls_and_nothing_grows();
    these_histories_are_legal();
    the_laws_have_a_history();
    the_laws_have_a_base();
    Ok(())
}

#[test]
fn the_laws_can_be_called(_rt: HostRuntime) -> Result<(), Fail> {
    nets_stay_at_executions();
    postings_are_least();
    executions_follow_the_posting();
    empty_begins_markets();
    folds_begin_markets();
    empty_is_writable();
    folds_are_writable();
    writable_fits();
    writable_comes_back();
    writable_can_be_written();
    fitting_is_writable();
    spellings_stand_for_bases();
    posting_can_be_executed();
    plan_stays();
    Ok(())
}
