//! Proposals that are solved for small markets, worked out by hand.

use crate::files::{FIVE_DEALERS, FileMarket, THREE_DEALERS, TWO_AND_TWO, is_told, solved};
use crate::networks::so;
use command_types::Mode;
use dual_certificate::read_proposal;
use std::alloc::{AllocGlobal, Global};
use std::test::Fail;
use std::thread::Threads;
use trade_file::read_roster;

const CHAIN: FileMarket<'static> = FileMarket {
    parties: THREE_DEALERS,
    trades: "A,B,P,10\nB,C,P,7\n",
    mode: Mode::Hybrid,
};

/// That what is solved begins and ends like this, and passes the check.
fn gives<R: Threads + Sync + AllocGlobal>(
    rt: &R,
    market: FileMarket<'_>,
    head: &str,
    end: &str,
) -> Result<(), Fail> {
    let text = solved(rt, market)?;
    is_told(rt, market, &text, "yes\n")?;
    let holds = text.starts_with(head.as_bytes()) && text.ends_with(end.as_bytes());
    so(holds, "the proposal is otherwise")
}

/// Markets, and how their proposals begin and end.
const MARKETS: &[(FileMarket<'static>, &str, &str)] = &[
    (
        CHAIN,
        "product P 17 10 10 17\nrow A B 3\nrow A C 7\npot A ",
        "\nbound 10\nend 1\n",
    ),
    // A chain keeps its rows.
    (
        FileMarket {
            mode: Mode::Conservative,
            ..CHAIN
        },
        "product P 17 17 10 17\nrow A B 10\nrow B C 7\npot A ",
        "\nbound 17\nend 1\n",
    ),
    // A ring falls to nothing.
    (
        FileMarket {
            parties: THREE_DEALERS,
            trades: "A,B,P,10\nB,C,P,10\nC,A,P,10\n",
            mode: Mode::Conservative,
        },
        "product P 30 0 0 30\npot A ",
        "\nbound 0\nend 1\n",
    ),
    // Amounts of 1 and of 10^15 in one market.
    (
        FileMarket {
            parties: THREE_DEALERS,
            trades: "A,C,P,1\nB,A,P,1\nB,C,P,1000000000000000\nB,C,P,1000000000000000\nC,A,P,1000000000000000\nC,B,P,1000000000000000\n",
            mode: Mode::Conservative,
        },
        "product P 4000000000000002 2000000000000000 1000000000000001 2000000000000000\nrow B A 1\nrow B C 1000000000000000\nrow C A 999999999999999\npot A ",
        "\nbound 2000000000000000\nend 1\n",
    ),
];

fn all_are_solved<R: Threads + Sync + AllocGlobal>(rt: &R) -> Result<(), Fail> {
    for &(market, head, end) in MARKETS {
        gives(rt, market, head, end)?;
    }
    Ok(())
}

#[test]
fn small_markets_are_solved_as_by_hand(rt: HostRuntime) -> Result<(), Fail> {
    all_are_solved(&rt)
}

/// Whether numbers differ from the first one as it says.
fn differ(numbers: &[i32], differences: &[i64]) -> bool {
    let Some(first) = numbers.first() else {
        return differences.is_empty();
    };
    for (number, difference) in numbers.iter().zip(differences) {
        if i64::from(*number) - i64::from(*first) != *difference {
            return false;
        }
    }
    numbers.len() == differences.len()
}

/// That the potentials of what is solved differ from the first one's as it says.
fn has_potentials<R: Threads + Sync + AllocGlobal>(
    rt: &R,
    market: FileMarket<'_>,
    differences: &[i64],
) -> Result<(), Fail> {
    let roster = read_roster(rt.alloc(), market.parties.as_bytes())?;
    let text = solved(rt, market)?;
    let parts = read_proposal(rt.alloc(), &text, &roster)?;
    let holds = match parts.first() {
        None => false,
        Some(part) => differ(part.solution.potentials(), differences),
    };
    so(holds, "the potentials are otherwise")
}

#[test]
fn the_first_potential_of_a_chain_is_1_above_the_others(rt: HostRuntime) -> Result<(), Fail> {
    has_potentials(&rt, CHAIN, &[0, -1, -1])
}

/// That what is solved has the gross of its floor, for each product.
fn reaches_floor(alloc: Global, parties: &str, text: &[u8]) -> Result<(), Fail> {
    let roster = read_roster(alloc, parties.as_bytes())?;
    let parts = read_proposal(alloc, text, &roster)?;
    let reached = parts.iter().all(|part| part.least == part.floor_m);
    so(reached, "the gross is more than the floor")
}

/// That what is solved passes the check, and has the gross of its floor in free mode.
fn passes<R: Threads + Sync + AllocGlobal>(rt: &R, market: FileMarket<'_>) -> Result<(), Fail> {
    let text = solved(rt, market)?;
    is_told(rt, market, &text, "yes\n")?;
    if market.mode == Mode::Free {
        return reaches_floor(rt.alloc(), market.parties, &text);
    }
    Ok(())
}

const FILES: &[(&str, &str)] = &[
    (THREE_DEALERS, "\n"),
    (THREE_DEALERS, "A,B,P,1\nB,A,P,1\nB,C,P,3\nA,B,P,2\n"),
    (FIVE_DEALERS, "A,B,P,9\nB,C,P,8\nC,D,P,7\nD,E,P,6\n"),
    (
        FIVE_DEALERS,
        "A,B,P,9\nB,C,P,8\nC,D,P,7\nD,E,P,6\nE,A,P,5\n",
    ),
    (
        FIVE_DEALERS,
        "A,B,P,1000000000000000\nB,C,P,999999999999999\n",
    ),
    (TWO_AND_TWO, "A,C,P,5\nC,B,P,5\nC,D,Q,4\nD,C,Q,9\n"),
    (TWO_AND_TWO, "A,B,Q,2\nB,C,Q,3\nC,D,Q,4\nD,A,Q,5\n"),
    ("name,role,key\nP,product,2031-06-30\n", "\n"),
    ("name,role,key\nA,customer,KA\n", "\n"),
];

fn all_pass<R: Threads + Sync + AllocGlobal>(rt: &R) -> Result<(), Fail> {
    for &(parties, trades) in FILES {
        for mode in [Mode::Conservative, Mode::Hybrid, Mode::Free] {
            let market = FileMarket {
                parties,
                trades,
                mode,
            };
            passes(rt, market)?;
        }
    }
    Ok(())
}

#[test]
fn what_is_solved_passes_the_check(rt: HostRuntime) -> Result<(), Fail> {
    all_pass(&rt)
}
