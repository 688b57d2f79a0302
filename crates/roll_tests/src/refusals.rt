//! Markets that can't go on, each with its first cause.

use crate::cases::{OLD, Period, is_refused, rolled_in_cycle};
use crate::sheets::{Deal, LIVE, Sheet};
use command_types::TradeState;
use period_roll::{Cause, RollFault};
use std::alloc::Global;
use std::test::Fail;

// A is renamed.
const RENAMED: Period = (
    "name,role,key\nAA,dealer,KA\nB,dealer,KB\nC,customer,KC\nP,product,2027-03-01\nQ,product,2026-06-01\n",
    None,
);

// C is a dealer.
const CHANGED: Period = (
    "name,role,key\nA,dealer,KA\nB,dealer,KB\nC,dealer,KC\nP,product,2027-03-01\nQ,product,2026-06-01\n",
    None,
);

// Without P.
const WITHOUT_P: Period = (
    "name,role,key\nA,dealer,KA\nB,dealer,KB\nC,customer,KC\nQ,product,2026-06-01\n",
    None,
);

// P matures on the day of the trades.
const EARLY: Period = (
    "name,role,key\nA,dealer,KA\nB,dealer,KB\nC,customer,KC\nP,product,2026-03-02\nQ,product,2026-06-01\n",
    None,
);

// P matures early, and C is gone.
const BOTH: Period = (
    "name,role,key\nA,dealer,KA\nB,dealer,KB\nP,product,2026-03-02\nQ,product,2026-06-01\n",
    None,
);

const ENDED: Deal = Deal {
    state: TradeState::Ended,
    ..LIVE
};

const OF_C: Deal = Deal { buyer: 2, ..LIVE };

const IN_Q: Deal = Deal { product: 1, ..LIVE };

fn are_refused(alloc: Global, cases: &[(Period, Cause)]) -> Result<bool, Fail> {
    for (period, cause) in cases {
        let sheet = Sheet {
            position: 5,
            settings: &[],
            deals: &[ENDED, IN_Q, LIVE, OF_C],
        };
        if !is_refused(alloc, *period, &sheet, *cause)? {
            return Ok(false);
        }
    }
    Ok(true)
}

#[test]
fn each_cause_names_its_first_trade(rt: HostRuntime) -> Result<(), Fail> {
    let cases = [
        (RENAMED, Cause::MemberGone { trade: 2 }),
        (CHANGED, Cause::RoleChanged { trade: 4 }),
        (WITHOUT_P, Cause::ProductGone { trade: 3 }),
        (EARLY, Cause::MaturesEarly { trade: 3 }),
        (BOTH, Cause::MemberGone { trade: 4 }),
    ];
    assert!(rt; are_refused(rt.alloc(), &cases)?);
    Ok(())
}

#[test]
fn the_last_position_has_no_next(rt: HostRuntime) -> Result<(), Fail> {
    let sheet = Sheet {
        position: 1_000_000_000_000_000_000,
        settings: &[],
        deals: &[LIVE],
    };
    assert!(rt; is_refused(rt.alloc(), (OLD, None), &sheet, Cause::PositionsFull)?);
    Ok(())
}

#[test]
fn no_market_is_rolled_in_a_cycle(rt: HostRuntime) -> Result<(), Fail> {
    let made = rolled_in_cycle(rt.alloc(), OLD)?;
    assert!(rt; matches!(made, Err(RollFault::Refused(Cause::CycleOpen))));
    Ok(())
}
