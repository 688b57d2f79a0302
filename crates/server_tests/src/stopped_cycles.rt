//! A cycle in one script, with each call of its disk failing in turn; a stopped one that goes on.

use crate::program::{SCRIPT, Text, Trial};
use std::alloc::AllocGlobal;
use std::sync::Wait;
use std::test::Fail;
use std::thread::Threads;

/// A ring of trades, frozen, proposed and accepted by all, whose bytes come one by one, so that no changes share their syncs. A call
/// of its disk is to fail; what is replied is left open.
pub const CYCLE: Trial<'static> = Trial {
    most: 1,
    input: b"HELLO A KA\nTRADE A B P 10 2026-03-02\nHELLO B KB\nAFFIRM 1\nTRADE B C P 10 2026-03-02\nHELLO C KC\nAFFIRM 2\nTRADE C A P 10 2026-03-02\nHELLO A KA\nAFFIRM 3\nHELLO OPS KO\nFREEZE 2026-03-31\nPROPOSE 1 conservative\nHELLO A KA\nACCEPT 1 1\nHELLO B KB\nACCEPT 1 1\nHELLO C KC\nACCEPT 1 1\nNETS P\nACCEPT 1 1\n",
    status: 6,
    output: Text::Ends(b""),
    errors: b"disk fault\n",
    ..SCRIPT
};

// The last sync of the last vote fails, which is call 59: the plan is not executed in what is shown.
const LAST_VOTE_FAILS: Trial<'static> = Trial {
    failing_call: 59,
    output: Text::Is(
        b"ok 0 hello A\nok 1 trade 1\nok 1 hello B\nok 2 live 1\nok 3 trade 2\nok 3 hello C\nok 4 live 2\nok 5 trade 3\nok 5 hello A\nok 6 live 3\nok 6 hello OPS\nok 7 frozen 1 3\nok 9 proposed 1 1 30 0\nok 9 hello A\nok 10 accepted 1 1 2\nok 10 hello B\nok 11 accepted 1 1 1\nok 11 hello C\nno 11 27 disk-fault\nok 11 nets 10 10 0\nno 11 26 stopped 11\n",
    ),
    ..CYCLE
};

const LAST_VOTE: &[u8] = b"HELLO C KC\nACCEPT 1 1\nNETS P\nACCEPT 1 1\n";

const EXECUTED: &[u8] =
    b"ok 11 hello C\nok 12 executed 1 1 3 0 0\nok 12 nets 0 0 0\nno 12 17 wrong-phase none\n";

const FOUND_EXECUTED: &[u8] =
    b"ok 12 hello C\nno 12 17 wrong-phase none\nok 12 nets 0 0 0\nno 12 17 wrong-phase none\n";

fn the_last_vote_fails<R: Threads + Wait + Sync + AllocGlobal>(rt: &R) -> Result<(), Fail> {
    LAST_VOTE_FAILS
        .left(rt)?
        .goes_on(rt, LAST_VOTE, (EXECUTED, FOUND_EXECUTED))
}

#[test]
fn a_disk_that_fails_in_the_last_vote_executes_the_plan_whole_or_not_at_all(
    rt: HostRuntime,
) -> Result<(), Fail> {
    the_last_vote_fails(&rt)
}

// What the operator finds after so many changes of the cycle: the market of the live trades.
const MARKETS: [&[u8]; 13] = [
    b"ok 0 hello OPS\nok 0 market 0 0 0 0\n",
    b"ok 1 hello OPS\nok 1 market 0 0 0 0\n",
    b"ok 2 hello OPS\nok 2 market 10 10 0 10\n",
    b"ok 3 hello OPS\nok 3 market 10 10 0 10\n",
    b"ok 4 hello OPS\nok 4 market 20 10 10 20\n",
    b"ok 5 hello OPS\nok 5 market 20 10 10 20\n",
    b"ok 6 hello OPS\nok 6 market 30 0 30 30\n",
    b"ok 7 hello OPS\nok 7 market 30 0 30 30\n",
    b"ok 8 hello OPS\nok 8 market 30 0 30 30\n",
    b"ok 9 hello OPS\nok 9 market 30 0 30 30\n",
    b"ok 10 hello OPS\nok 10 market 30 0 30 30\n",
    b"ok 11 hello OPS\nok 11 market 30 0 30 30\n",
    b"ok 12 hello OPS\nok 12 market 0 0 0 0\n",
];

/// Asks for the operator's figures.
pub const MARKET: &[u8] = b"HELLO OPS KO\nNETS P\n";

/// What is found after so many changes.
pub fn market_after(changes: u64) -> &'static [u8] {
    match MARKETS.get(changes as usize) {
        Some(market) => market,
        None => b"",
    }
}

// What is found where that call of the disk failed: after a crash that loses what no sync followed, and after one that
// keeps all that was written. An opening has eleven calls, and a change four, of which the last is the sync of its gate.
fn found_after(call: u64) -> (&'static [u8], &'static [u8]) {
    let done = call.saturating_sub(12) / 4;
    let is_last_sync = call >= 15 && call % 4 == 3;
    let made = if is_last_sync { done + 1 } else { done };
    (market_after(done), market_after(made))
}

fn each_call_fails<R: Threads + Wait + Sync + AllocGlobal>(rt: &R) -> Result<(), Fail> {
    for call in 1..=59 {
        let cycle = Trial {
            failing_call: call,
            ..CYCLE
        };
        cycle.left(rt)?.goes_on(rt, MARKET, found_after(call))?;
    }
    Ok(())
}

#[test]
fn each_call_of_the_disk_that_fails_leaves_the_changes_before_it(
    rt: HostRuntime,
) -> Result<(), Fail> {
    each_call_fails(&rt)
}
