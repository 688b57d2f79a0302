//! A PROPOSE whose problems can't be solved for want of memory.

use crate::lock::opened;
use crate::program::{NOON, ROSTER, so};
use crate::sources::Input;
use network_laws::{Limits, Network, Solution, Solver};
use outside::{MemoryClock, MemorySink, OpenGate};
use session::{SessionEnd, serve_session};
use std::alloc::{AllocError, AllocGlobal};
use std::sync::Wait;
use std::test::Fail;
use std::thread::Threads;
use trade_file::read_roster;

// It never finds memory.
#[derive(Drop)]
struct Forgetful;

impl Solver for Forgetful {
    fn solve(&self, _limits: &Limits, _network: &Network) -> Result<Solution, AllocError> {
        Err(AllocError)
    }
}

// The version has begun where the refusal is told, and can be posted by hand.
const LINES: &[u8] =
    b"HELLO A KA\nTRADE A B P 10 2026-03-02\nHELLO B KB\nAFFIRM 1\nTRADE B C P 10 2026-03-02\nHELLO C KC\nAFFIRM 2\nTRADE C A P 10 2026-03-02\nHELLO A KA\nAFFIRM 3\nHELLO OPS KO\nFREEZE 2026-03-31\nPROPOSE 1 conservative\nPROPOSE 1 hybrid\nPOST 1 1\nPOST 1 2\n";

const REPLIES: &[u8] =
    b"ok 0 hello A\nok 1 trade 1\nok 1 hello B\nok 2 live 1\nok 3 trade 2\nok 3 hello C\nok 4 live 2\nok 5 trade 3\nok 5 hello A\nok 6 live 3\nok 6 hello OPS\nok 7 frozen 1 3\nno 8 28 memory\nno 9 28 memory\nno 9 18 wrong-version 2\nok 10 proposed 1 2 30 0\n";

fn tells_want_of_memory<R: Threads + Wait + Sync + AllocGlobal>(rt: &R) -> Result<(), Fail> {
    let alloc = rt.alloc();
    let mut sink = MemorySink::new(alloc, 4096)?;
    let roster = read_roster(alloc, ROSTER)?;
    let (turns, pass) = opened(alloc, &roster)?;
    let (end, _pass) = serve_session(
        rt,
        alloc,
        &turns,
        64,
        &Forgetful,
        &OpenGate,
        &MemoryClock::new(NOON),
        &roster,
        pass,
        &mut Input::new(LINES, 65536, 0),
        &mut sink,
    );
    let served = matches!(end, SessionEnd::Ended) && sink.bytes() == REPLIES;
    so(served, "the replies are otherwise")
}

#[test]
fn a_proposal_without_memory_is_told_where_its_version_began(rt: HostRuntime) -> Result<(), Fail> {
    tells_want_of_memory(&rt)
}
