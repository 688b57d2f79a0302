//! A cycle over a disk, executed and found again, or stopped by a fault of the disk in its last vote.

use crate::disks::TWO;
use crate::house_lives::{End, Life, Party, Said, Step, Told, is_lived};
use command_types::Refusal;
use std::test::Fail;

/// A ring of three trades is frozen, its version begun and the empty network posted, and A and B vote for that.
const VOTED_BY_TWO: [Step; 11] = [
    (Party::A, Said::Trade(Party::B), 1, Told::Done),
    (Party::B, Said::Affirm(1), 2, Told::Done),
    (Party::B, Said::Trade(Party::C), 3, Told::Done),
    (Party::C, Said::Affirm(2), 4, Told::Done),
    (Party::C, Said::Trade(Party::A), 5, Told::Done),
    (Party::A, Said::Affirm(3), 6, Told::Done),
    (Party::Operator, Said::Freeze, 7, Told::Done),
    (Party::Operator, Said::Begin, 8, Told::Done),
    (Party::Operator, Said::PostNothing, 9, Told::Done),
    (Party::A, Said::Vote, 10, Told::Done),
    (Party::B, Said::Vote, 11, Told::Done),
];

const EXECUTED_BY_C: [Step; 3] = [
    (Party::Operator, Said::Nets, 11, Told::Gross(30)),
    (Party::C, Said::Vote, 12, Told::Done),
    (Party::Operator, Said::Nets, 12, Told::Gross(0)),
];

#[test]
fn a_cycle_is_executed_and_found_again(rt: HostRuntime) -> Result<(), Fail> {
    let life = Life {
        file: b"",
        failing: 0,
        first: &VOTED_BY_TWO,
        then: &EXECUTED_BY_C,
        end: End::Open,
    };
    assert!(rt; is_lived(&rt, rt.alloc(), &life, (12, 0), (12, 0))?);
    Ok(())
}

const STOPPED_WITH_C: [Step; 3] = [
    (Party::C, Said::Vote, 11, Told::No(Refusal::DiskFault)),
    (Party::C, Said::Nets, 11, Told::Own(10, 10)),
    (
        Party::C,
        Said::Vote,
        11,
        Told::No(Refusal::Stopped { at: 11 }),
    ),
];

// Opening takes ten calls on an empty disk: the length and a read, four for the header and the slots, and four for the turn. Each
// change takes four, so the last sync of the twelfth is call 58. A crash may lose that vote, or keep it.
#[test]
fn a_fault_in_the_last_sync_stops_the_house(rt: HostRuntime) -> Result<(), Fail> {
    let life = Life {
        file: b"",
        failing: 58,
        first: &VOTED_BY_TWO,
        then: &STOPPED_WITH_C,
        end: End::Stopped,
    };
    assert!(rt; is_lived(&rt, rt.alloc(), &life, (11, 30), (12, 0))?);
    Ok(())
}

const DEALT_BEHIND_TWO: [Step; 2] = [
    (Party::A, Said::Trade(Party::B), 3, Told::Done),
    (Party::B, Said::Affirm(2), 4, Told::Done),
];

// The journal goes on behind what is found.
#[test]
fn a_house_that_was_found_again_goes_on(rt: HostRuntime) -> Result<(), Fail> {
    let life = Life {
        file: &TWO,
        failing: 0,
        first: &[],
        then: &DEALT_BEHIND_TWO,
        end: End::Open,
    };
    assert!(rt; is_lived(&rt, rt.alloc(), &life, (4, 20), (4, 20))?);
    Ok(())
}
