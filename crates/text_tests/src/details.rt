//! The bytes of detail lines.

use crate::parties::three_dealers;
use command_types::{Answer, LimitLine, Listed, PlanRow, Roster, TradeRow, TradeState};
use statements::{DetailRow, detail_count, detail_row, write_row};
use std::alloc::{AllocError, Global};
use std::test::Fail;
use units_core::{Amount, Day, MemberNo, ProductNo};

/// A trade's number, seller, buyer, amount and state, whether its buyer holds it, and its line.
type TradeCase<'a> = (u64, u16, u16, u64, TradeState, bool, &'a str);

fn amount(n: u64) -> Result<Amount, AllocError> {
    Amount::new(n).ok_or(AllocError)
}

/// A trade in P of 2026-03-02, of which nobody asked for an end.
fn trade(case: TradeCase<'_>) -> Result<TradeRow, AllocError> {
    let (number, seller, buyer, of, state, hold_in, _) = case;
    Ok(TradeRow {
        number,
        seller: MemberNo(seller),
        buyer: MemberNo(buyer),
        product: ProductNo(0),
        amount: amount(of)?,
        day: Day::read(b"2026-03-02").ok_or(AllocError)?,
        state,
        submitter: None,
        mark: None,
        hold_out: false,
        hold_in,
        frozen: false,
    })
}

/// Whether the row has this line.
fn tells(roster: &Roster, row: DetailRow, want: &str) -> bool {
    let mut into = [0; 4096];
    let size = write_row(&row, roster, &mut into);
    &into[..size] == want.as_bytes()
}

/// Whether each trade has its line.
fn tells_trades(alloc: Global, cases: &[TradeCase<'_>]) -> Result<bool, Fail> {
    let roster = three_dealers(alloc)?;
    for &case in cases {
        if !tells(&roster, DetailRow::Trade(trade(case)?), case.6) {
            return Ok(false);
        }
    }
    Ok(true)
}

#[test]
fn trades_are_told(rt: HostRuntime) -> Result<(), Fail> {
    let live = TradeState::Live;
    let cases = [
        (
            2,
            1,
            2,
            10,
            live,
            false,
            "trade 2 B C P 10 2026-03-02 live -\n",
        ),
        (
            3,
            2,
            0,
            10,
            live,
            false,
            "trade 3 C A P 10 2026-03-02 live -\n",
        ),
        (
            1,
            0,
            1,
            10,
            TradeState::Alleged,
            false,
            "trade 1 A B P 10 2026-03-02 alleged -\n",
        ),
        (
            1,
            0,
            1,
            3,
            TradeState::Ended,
            false,
            "trade 1 A B P 3 2026-03-02 ended -\n",
        ),
        (
            2,
            1,
            2,
            10,
            live,
            true,
            "trade 2 B C P 10 2026-03-02 live held\n",
        ),
    ];
    assert!(rt; tells_trades(rt.alloc(), &cases)?);
    Ok(())
}

/// Whether each row has its line.
fn tells_rows(alloc: Global, cases: &[(DetailRow, &str)]) -> Result<bool, Fail> {
    let roster = three_dealers(alloc)?;
    for &(row, want) in cases {
        if !tells(&roster, row, want) {
            return Ok(false);
        }
    }
    Ok(true)
}

#[test]
fn limits_are_told(rt: HostRuntime) -> Result<(), Fail> {
    let bounded = LimitLine {
        seller: 0,
        buyer: 1,
        lower: 4,
        now: 10,
        upper: Some(10),
    };
    let unbounded = LimitLine {
        seller: 0,
        buyer: 1,
        lower: 0,
        now: 0,
        upper: None,
    };
    let cases = [
        (DetailRow::Limit(bounded), "limit A B 4 10 10\n"),
        (DetailRow::Limit(unbounded), "limit A B 0 0 -\n"),
    ];
    assert!(rt; tells_rows(rt.alloc(), &cases)?);
    Ok(())
}

#[test]
fn plans_are_told(rt: HostRuntime) -> Result<(), Fail> {
    let cut = PlanRow::Cut {
        trade: 1,
        from: 10,
        to: 3,
    };
    let new = PlanRow::New {
        product: ProductNo(0),
        seller: MemberNo(0),
        buyer: MemberNo(2),
        amount: amount(7)?,
        day: Day::read(b"2031-06-30").ok_or(AllocError)?,
    };
    let cases = [
        (DetailRow::Plan(cut), "cut 1 10 3\n"),
        (DetailRow::Plan(new), "new A C P 7\n"),
        (DetailRow::Plan(PlanRow::End { trade: 2 }), "end 2\n"),
    ];
    assert!(rt; tells_rows(rt.alloc(), &cases)?);
    Ok(())
}

/// Whether the answer's row at the index ends the trade.
fn ends(answer: &Answer, index: usize, wanted: u64) -> bool {
    index < detail_count(answer)
        && matches!(detail_row(answer, index), DetailRow::Plan(PlanRow::End { trade }) if trade == wanted)
}

/// A plan that ends the trades 1 and 3.
fn plan(alloc: Global) -> Result<Answer, AllocError> {
    let steps = [PlanRow::End { trade: 1 }, PlanRow::End { trade: 3 }];
    let rows = Listed::new(Vec::from_array(alloc, steps)?);
    Ok(Answer::PlanRows {
        cycle: 1,
        version: 1,
        rows,
    })
}

#[test]
fn the_rows_of_an_answer_are_found(rt: HostRuntime) -> Result<(), Fail> {
    let answer = plan(rt.alloc())?;
    assert!(rt; detail_count(&answer) == 2 && ends(&answer, 0, 1) && ends(&answer, 1, 3));
    assert!(rt; detail_count(&Answer::Bye) == 0);
    Ok(())
}
