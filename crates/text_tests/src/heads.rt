//! The text of each head line that is no refusal.

use crate::parties::two_dealers;
use command_text::write_head;
use command_types::{Answer, LimitLine, Listed, PlanRow, Reply};
use std::alloc::{AllocError, Global};
use std::test::Fail;
use units_core::Name;

fn reply(at: u64, answer: Answer) -> Reply {
    Reply { at, answer }
}

/// Whether each reply has its head line.
fn tells(alloc: Global, cases: &[(Reply, &str)]) -> Result<bool, Fail> {
    let roster = two_dealers(alloc)?;
    let mut into = [0; 4096];
    for (reply, want) in cases {
        let size = write_head(reply, &roster, &mut into);
        if &into[..size] != want.as_bytes() {
            return Ok(false);
        }
    }
    Ok(true)
}

#[test]
fn answers_on_trades_are_told(rt: HostRuntime) -> Result<(), Fail> {
    let name = Name::read(b"BANK-7").expect(&rt, "a name");
    let cases = [
        (reply(0, Answer::Hello { name }), "ok 0 hello BANK-7\n"),
        (reply(1, Answer::Traded { trade: 1 }), "ok 1 trade 1\n"),
        (reply(2, Answer::Affirmed { trade: 1 }), "ok 2 live 1\n"),
        (reply(3, Answer::Marked { trade: 1 }), "ok 3 ending 1\n"),
        (reply(4, Answer::Ended { trade: 1 }), "ok 4 ended 1\n"),
        (reply(5, Answer::Held { trade: 2 }), "ok 5 held 2\n"),
        (reply(6, Answer::Freed { trade: 2 }), "ok 6 freed 2\n"),
        (reply(7, Answer::Tolerance), "ok 7 tol\n"),
        (reply(8, Answer::Bye), "ok 8 bye\n"),
    ];
    assert!(rt; tells(rt.alloc(), &cases)?);
    Ok(())
}

#[test]
fn figures_are_told(rt: HostRuntime) -> Result<(), Fail> {
    let own = Answer::Own {
        out: 5,
        into: 12,
        net: -7,
    };
    let most = Answer::Own {
        out: 18_446_744_073_709_551_615,
        into: 0,
        net: 9_223_372_036_854_775_807,
    };
    let market = Answer::Market {
        gross: 30,
        floor_m: 10,
        excess: 20,
        bilateral: 25,
    };
    let cases = [
        (reply(9, own), "ok 9 nets 5 12 -7\n"),
        (
            reply(9, most),
            "ok 9 nets 18446744073709551615 0 9223372036854775807\n",
        ),
        (reply(9, market), "ok 9 market 30 10 20 25\n"),
    ];
    assert!(rt; tells(rt.alloc(), &cases)?);
    Ok(())
}

/// The limits of one pair.
fn limits(alloc: Global) -> Result<Answer, AllocError> {
    let line = LimitLine {
        seller: 0,
        buyer: 1,
        lower: 0,
        now: 5,
        upper: None,
    };
    let rows = Listed::new(Vec::from_array(alloc, [line])?);
    Ok(Answer::LimitRows { rows })
}

/// A plan of two steps.
fn plan(alloc: Global) -> Result<Answer, AllocError> {
    let steps = [PlanRow::End { trade: 3 }, PlanRow::End { trade: 4 }];
    let rows = Listed::new(Vec::from_array(alloc, steps)?);
    Ok(Answer::PlanRows {
        cycle: 1,
        version: 2,
        rows,
    })
}

#[test]
fn lists_are_told_with_their_sizes(rt: HostRuntime) -> Result<(), Fail> {
    let none = Listed::new(Vec::new(rt.alloc()));
    let cases = [
        (reply(9, limits(rt.alloc())?), "ok 9 limits 1\n"),
        (reply(9, plan(rt.alloc())?), "ok 9 plan 1 2 2\n"),
        (
            reply(9, Answer::Statement { rows: none }),
            "ok 9 statement 0\n",
        ),
    ];
    assert!(rt; tells(rt.alloc(), &cases)?);
    Ok(())
}

#[test]
fn steps_of_a_cycle_are_told(rt: HostRuntime) -> Result<(), Fail> {
    let (cycle, version) = (1, 2);
    let proposed = Answer::Proposed {
        cycle,
        version,
        before: 340_282_366_920_938_463_463_374_607_431_768_211_455,
        after: 0,
    };
    let accepted = Answer::Accepted {
        cycle,
        version,
        left: 3,
    };
    let executed = Answer::Executed {
        cycle,
        version,
        ended: 5,
        cut: 4,
        made: 3,
    };
    let cases = [
        (
            reply(10, Answer::Frozen { cycle, trades: 9 }),
            "ok 10 frozen 1 9\n",
        ),
        (
            reply(11, Answer::Begun { cycle, version }),
            "ok 11 begun 1 2\n",
        ),
        (reply(11, Answer::Noted { size: 3 }), "ok 11 noted 3\n"),
        (
            reply(12, proposed),
            "ok 12 proposed 1 2 340282366920938463463374607431768211455 0\n",
        ),
        (
            reply(12, Answer::Nothing { cycle, version }),
            "ok 12 nothing 1 2\n",
        ),
        (reply(13, accepted), "ok 13 accepted 1 2 3\n"),
        (
            reply(u64::MAX, executed),
            "ok 18446744073709551615 executed 1 2 5 4 3\n",
        ),
        (
            reply(14, Answer::Declined { cycle, version }),
            "ok 14 declined 1 2\n",
        ),
        (
            reply(15, Answer::Cancelled { cycle }),
            "ok 15 cancelled 1\n",
        ),
    ];
    assert!(rt; tells(rt.alloc(), &cases)?);
    Ok(())
}
