//! Entries that the operator asks a house for: of files in either spelling, behind a base and behind a fold, and of changes that
//! were made since.

use crate::bases::based;
use crate::disks::{BEGUN_ONE, ONE, TURNED_TWO, TWO};
use crate::folded_houses::file_of;
use crate::house_lives::{End, Life, Party, Said, Step, Told, is_lived};
use command_types::Refusal;
use std::test::Fail;

/// A's command TRADE A B P 10 2026-03-02 from seat 0 as a record, of moment 0.
const OLD_TRADE: &[u8] =
    b"\0\0\0\0\0\0\0\0\0\0\0\0\x01A\x01\x01A\x01B\x01P\x0a\0\0\0\0\0\0\0\xea\x07\x03\x02";

/// The same of noon on 2026-03-31.
const TRADE: &[u8] =
    b"\x40\xb7\xcb\x69\0\0\0\0\0\0\0\0\x01A\x01\x01A\x01B\x01P\x0a\0\0\0\0\0\0\0\xea\x07\x03\x02";

/// B's command AFFIRM 1, of moment 0 and of that noon, and its command HOLD 1 of that noon.
const OLD_AFFIRM: &[u8] = b"\0\0\0\0\0\0\0\0\0\0\0\0\x01B\x02\x01\0\0\0\0\0\0\0";

const AFFIRM: &[u8] = b"\x40\xb7\xcb\x69\0\0\0\0\0\0\0\0\x01B\x02\x01\0\0\0\0\0\0\0";

const HOLD: &[u8] = b"\x40\xb7\xcb\x69\0\0\0\0\0\0\0\0\x01B\x04\x01\0\0\0\0\0\0\0";

/// What the operator is told of a file with A's trade, and B's affirmation of it, both without moments.
const OLD_TWO: [Step; 4] = [
    (Party::Operator, Said::Next(0), 2, Told::Entry(1, OLD_TRADE)),
    (
        Party::Operator,
        Said::Next(1),
        2,
        Told::Entry(2, OLD_AFFIRM),
    ),
    (Party::Operator, Said::Next(2), 2, Told::NoNext),
    (
        Party::Operator,
        Said::Next(3),
        2,
        Told::No(Refusal::Ahead { end: 2 }),
    ),
];

/// The same, where the affirmation has its moment.
const TURNED_BEHIND_ONE: [Step; 4] = [
    (Party::Operator, Said::Next(1), 2, Told::Entry(2, AFFIRM)),
    (Party::Operator, Said::Next(0), 2, Told::Entry(1, OLD_TRADE)),
    (Party::Operator, Said::Next(2), 2, Told::NoNext),
    (
        Party::Operator,
        Said::Next(u64::MAX),
        2,
        Told::No(Refusal::Ahead { end: 2 }),
    ),
];

/// And where it comes once the house is open.
const AFFIRMED_SINCE: [Step; 5] = [
    (Party::Operator, Said::Next(1), 1, Told::NoNext),
    (Party::B, Said::Affirm(1), 2, Told::Done),
    (Party::Operator, Said::Next(1), 2, Told::Entry(2, AFFIRM)),
    (Party::Operator, Said::Next(0), 2, Told::Entry(1, OLD_TRADE)),
    (Party::Operator, Said::Next(2), 2, Told::NoNext),
];

/// And where both come then. What is refused, and what a dealer asks for, is no entry.
const DEALT_SINCE: [Step; 8] = [
    (Party::Operator, Said::Next(0), 0, Told::NoNext),
    (Party::A, Said::Trade(Party::B), 1, Told::Done),
    (Party::A, Said::Affirm(1), 1, Told::No(Refusal::NotParty)),
    (Party::B, Said::Next(0), 1, Told::No(Refusal::NotOperator)),
    (Party::Operator, Said::Next(1), 1, Told::NoNext),
    (Party::B, Said::Affirm(1), 2, Told::Done),
    (Party::Operator, Said::Next(1), 2, Told::Entry(2, AFFIRM)),
    (Party::Operator, Said::Next(0), 2, Told::Entry(1, TRADE)),
];

/// Behind a base of position 3.
const OLD_BEHIND_BASE: [Step; 5] = [
    (
        Party::Operator,
        Said::Next(2),
        4,
        Told::No(Refusal::Gone { from: 3 }),
    ),
    (
        Party::Operator,
        Said::Next(3),
        4,
        Told::Entry(4, OLD_AFFIRM),
    ),
    (Party::B, Said::Hold(1), 5, Told::Done),
    (Party::Operator, Said::Next(4), 5, Told::Entry(5, HOLD)),
    (Party::Operator, Said::Next(5), 5, Told::NoNext),
];

const BEHIND_BASE: [Step; 3] = [
    (
        Party::Operator,
        Said::Next(0),
        4,
        Told::No(Refusal::Gone { from: 3 }),
    ),
    (Party::Operator, Said::Next(3), 4, Told::Entry(4, AFFIRM)),
    (
        Party::Operator,
        Said::Next(5),
        4,
        Told::No(Refusal::Ahead { end: 4 }),
    ),
];

/// A fold leaves no entry, and 1,000 changes in front of what comes then.
const BEHIND_FOLD: [Step; 6] = [
    (
        Party::Operator,
        Said::Next(999),
        1000,
        Told::No(Refusal::Gone { from: 1000 }),
    ),
    (Party::Operator, Said::Next(1000), 1000, Told::NoNext),
    (Party::B, Said::Hold(1), 1001, Told::Done),
    (
        Party::Operator,
        Said::Next(1000),
        1001,
        Told::Entry(1001, HOLD),
    ),
    (
        Party::Operator,
        Said::Next(999),
        1001,
        Told::No(Refusal::Gone { from: 1000 }),
    ),
    (Party::Operator, Said::Next(1001), 1001, Told::NoNext),
];

/// A file with the base of position 3, with the second mark, and B's command AFFIRM 1 of noon on 2026-03-31 behind it.
const DATED: &[u8] =
    b"OTCJRNLC\0\x19\0\0\0\0\0\0\0\0\0\0\0\0\0\0\0\x79\0\0\0\x02\x03\0\0\0\0\0\0\0\x01\0\0\0\0\0\0\0\x02\0\0\0\0\0\0\0\x03\0\x01A\x01B\x01C\x01\0\x01P\x01\0\0\0\0\0\0\0\0\0\0\0\x01\0\0\x04\0\0\0\0\0\0\0\x01\x09\0\0\0\0\0\0\0\x02\0\0\0\0\0\0\0\0\0\x01\0\0\0\x0a\0\0\0\0\0\0\0\xea\x07\x03\x02\0\x01\0\0\x01\0\x02\0\0\0\x07\0\0\0\0\0\0\0\xea\x07\x03\x03\x01\x02\x01\x03\x01\x17\0\0\0\x40\xb7\xcb\x69\0\0\0\0\0\0\0\0\x01B\x02\x01\0\0\0\0\0\0\0\0";

#[test]
fn entries_are_given_as_records_with_their_moments(rt: HostRuntime) -> Result<(), Fail> {
    let old = based();
    let thousand = file_of(rt.alloc(), 500)?;
    let cases: [(&[u8], &[Step], (u64, u64)); 8] = [
        (&[], &DEALT_SINCE, (2, 10)),
        (&ONE, &AFFIRMED_SINCE, (2, 10)),
        (&BEGUN_ONE, &AFFIRMED_SINCE, (2, 10)),
        (&TWO, &OLD_TWO, (2, 10)),
        (&TURNED_TWO, &TURNED_BEHIND_ONE, (2, 10)),
        (&old, &OLD_BEHIND_BASE, (5, 17)),
        (DATED, &BEHIND_BASE, (4, 17)),
        (&thousand, &BEHIND_FOLD, (1001, 500)),
    ];
    for (file, steps, found) in cases {
        let life = Life {
            file,
            failing: 0,
            first: &[],
            then: steps,
            end: End::Open,
        };
        assert!(rt;
            is_lived(&rt, rt.alloc(), &life, found, found)?,
            "of {} bytes",
            file.len()
        );
    }
    Ok(())
}

const STOPPED_AT_TWO: [Step; 4] = [
    (Party::A, Said::Trade(Party::B), 1, Told::Done),
    (Party::B, Said::Affirm(1), 1, Told::No(Refusal::DiskFault)),
    (Party::Operator, Said::Next(0), 1, Told::Entry(1, TRADE)),
    (Party::Operator, Said::Next(1), 1, Told::NoNext),
];

// Opening takes ten calls on an empty disk and each change four, so the last sync of the second is call 18.
#[test]
fn a_change_on_which_the_disk_failed_is_no_entry(rt: HostRuntime) -> Result<(), Fail> {
    let life = Life {
        file: b"",
        failing: 18,
        first: &[],
        then: &STOPPED_AT_TWO,
        end: End::Stopped,
    };
    assert!(rt; is_lived(&rt, rt.alloc(), &life, (1, 0), (2, 10))?);
    Ok(())
}
