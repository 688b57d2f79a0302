//! The text of each refusal.

use crate::parties::two_dealers;
use command_text::write_head;
use command_types::{Answer, BadPost, Clash, Phase, Refusal, Reply, TradeState};
use std::alloc::Global;
use std::test::Fail;
use units_core::{Day, ProductNo};

/// Whether each refusal has its head line at position 7.
fn refuses(alloc: Global, cases: &[(Refusal, &str)]) -> Result<bool, Fail> {
    let roster = two_dealers(alloc)?;
    let mut into = [0; 4096];
    for &(refusal, want) in cases {
        let reply = Reply {
            at: 7,
            answer: Answer::No(refusal),
        };
        let size = write_head(&reply, &roster, &mut into);
        if &into[..size] != want.as_bytes() {
            return Ok(false);
        }
    }
    Ok(true)
}

#[test]
fn refusals_have_a_number_and_a_name(rt: HostRuntime) -> Result<(), Fail> {
    let cases = [
        (Refusal::NotGreeted, "no 7 1 not-greeted\n"),
        (Refusal::BadKey, "no 7 2 bad-key\n"),
        (Refusal::UnknownMember, "no 7 4 unknown-member\n"),
        (Refusal::UnknownProduct, "no 7 5 unknown-product\n"),
        (Refusal::OwnTrade, "no 7 6 own-trade\n"),
        (Refusal::NotParty, "no 7 7 not-party\n"),
        (Refusal::AmountOver, "no 7 8 amount-over\n"),
        (Refusal::GrossOver, "no 7 9 gross-over\n"),
        (Refusal::TradesFull, "no 7 10 trades-full\n"),
        (Refusal::UnknownTrade, "no 7 11 unknown-trade\n"),
        (Refusal::NotOperator, "no 7 14 not-operator\n"),
        (Refusal::NotTouched, "no 7 19 not-touched\n"),
        (Refusal::AlreadyAccepted, "no 7 20 already-accepted\n"),
        (Refusal::FloorOverCeiling, "no 7 23 floor-over-ceiling\n"),
        (Refusal::DiskFault, "no 7 27 disk-fault\n"),
        (Refusal::Memory, "no 7 28 memory\n"),
        (Refusal::DraftFull, "no 7 29 draft-full\n"),
    ];
    assert!(rt; refuses(rt.alloc(), &cases)?);
    Ok(())
}

fn trade_state(state: TradeState) -> Refusal {
    Refusal::WrongTradeState { state }
}

#[test]
fn refusals_tell_their_value(rt: HostRuntime) -> Result<(), Fail> {
    let maturity = Day::read(b"2031-06-30").expect(&rt, "a day");
    let none = Refusal::WrongPhase { phase: Phase::None };
    let broken = Refusal::WrongPhase {
        phase: Phase::Broken,
    };
    let cases = [
        (Refusal::BadLine { at: 4096 }, "no 7 3 bad-line 4096\n"),
        (
            trade_state(TradeState::Alleged),
            "no 7 12 wrong-trade-state alleged\n",
        ),
        (
            trade_state(TradeState::Ended),
            "no 7 12 wrong-trade-state ended\n",
        ),
        (
            Refusal::TradeFrozen { cycle: 3 },
            "no 7 13 trade-frozen 3\n",
        ),
        (Refusal::CycleOpen { cycle: 3 }, "no 7 15 cycle-open 3\n"),
        (Refusal::WrongCycle { cycle: 3 }, "no 7 16 wrong-cycle 3\n"),
        (none, "no 7 17 wrong-phase none\n"),
        (broken, "no 7 17 wrong-phase broken\n"),
        (
            Refusal::WrongVersion { version: 2 },
            "no 7 18 wrong-version 2\n",
        ),
        (
            Refusal::CycleBroken { trade: 8 },
            "no 7 21 cycle-broken 8\n",
        ),
        (
            Refusal::Matured { maturity },
            "no 7 22 matured 2031-06-30\n",
        ),
        (
            Refusal::JournalFull { size: 99 },
            "no 7 25 journal-full 99\n",
        ),
        (Refusal::Stopped { at: 5 }, "no 7 26 stopped 5\n"),
    ];
    assert!(rt; refuses(rt.alloc(), &cases)?);
    Ok(())
}

/// The first product has this clash.
fn clashing(clash: Clash) -> Refusal {
    Refusal::BadCertificate {
        post: BadPost::At {
            product: ProductNo(0),
            clash,
        },
    }
}

#[test]
fn bad_certificates_name_the_product_and_the_members(rt: HostRuntime) -> Result<(), Fail> {
    let shape = Refusal::BadCertificate {
        post: BadPost::Shape,
    };
    let (seller, buyer) = (0, 1);
    let above = Clash::Above {
        seller: 1,
        buyer: 0,
    };
    let cases = [
        (shape, "no 7 24 bad-certificate shape\n"),
        (
            clashing(Clash::Below { seller, buyer }),
            "no 7 24 bad-certificate P below A BANK-7\n",
        ),
        (
            clashing(above),
            "no 7 24 bad-certificate P above BANK-7 A\n",
        ),
        (
            clashing(Clash::Net { member: 1 }),
            "no 7 24 bad-certificate P net BANK-7\n",
        ),
        (
            clashing(Clash::Open { seller, buyer }),
            "no 7 24 bad-certificate P open A BANK-7\n",
        ),
        (
            clashing(Clash::Slack { seller, buyer }),
            "no 7 24 bad-certificate P slack A BANK-7\n",
        ),
    ];
    assert!(rt; refuses(rt.alloc(), &cases)?);
    Ok(())
}
