//! A standby that asks for its last entry again before it follows.

use crate::replies::Told;
use crate::trials::{Trial, all_go};
use standby::FollowEnd::{Broken, Caught, Refused, SinkFault, SourceFault};
use std::test::Fail;

// Journals as FORMATS has them: A's trade as entry 1, that and B's affirmation as entry 2, and a base of position 5 alone.
const ONE: &[u8] =
    b"OTCJRNLC\0\x19\0\0\0\0\0\0\0\0\0\0\0\0\0\0\0\0\0\0\0\x01\x08\0\0\0MOMENTS2\x01\x21\0\0\0\0\0\0\0\0\0\0\0\0\0\0\0\x01A\x01\x01A\x01B\x01P\x0a\0\0\0\0\0\0\0\xea\x07\x03\x02\0";

const TWO: &[u8] =
    b"OTCJRNLC\0\x19\0\0\0\0\0\0\0\0\0\0\0\0\0\0\0\0\0\0\0\x01\x08\0\0\0MOMENTS2\x01\x21\0\0\0\0\0\0\0\0\0\0\0\0\0\0\0\x01A\x01\x01A\x01B\x01P\x0a\0\0\0\0\0\0\0\xea\x07\x03\x02\x01\x17\0\0\0\0\0\0\0\0\0\0\0\0\0\0\0\x01B\x02\x01\0\0\0\0\0\0\0\0";

const FROM_5: &[u8] =
    b"OTCJRNLC\0\x19\0\0\0\0\0\0\0\0\0\0\0\0\0\0\0\x35\0\0\0\x02\x05\0\0\0\0\0\0\0\0\0\0\0\0\0\0\0\0\0\0\0\0\0\0\0\x03\0\x01A\x01B\x01C\x01\0\x01P\0\0\0\0\0\0\0\0\0\0\0\0\0\0\0\0\0";

// A standby with both entries, whose primary has the same.
const SAME: Trial = Trial {
    journal: TWO,
    compare: true,
    replies: &[Told::Hello, Told::Affirm, Told::Last],
    faults: [0, 0, 0],
    lines: b"HELLO OPS KO\nNEXT 1\nNEXT 2\nBYE\n",
    end: Caught,
    found: (2, 10),
};

// It goes on where the primary has the same entry, or has no entry there any more, or where there is none to compare.
const GOES_ON: &[Trial] = &[
    SAME,
    Trial {
        replies: &[Told::Hello, Told::Text(b"no 9 31 gone 2\n"), Told::Last],
        ..SAME
    },
    Trial {
        journal: ONE,
        replies: &[Told::Hello, Told::Trade, Told::Affirm, Told::Last],
        lines: b"HELLO OPS KO\nNEXT 0\nNEXT 1\nNEXT 2\nBYE\n",
        ..SAME
    },
    Trial {
        journal: b"",
        replies: &[Told::Hello, Told::Trade, Told::Affirm, Told::Last],
        lines: b"HELLO OPS KO\nNEXT 0\nNEXT 1\nNEXT 2\nBYE\n",
        ..SAME
    },
    Trial {
        journal: FROM_5,
        replies: &[Told::Hello, Told::Text(b"ok 5 none\n")],
        lines: b"HELLO OPS KO\nNEXT 5\nBYE\n",
        found: (5, 0),
        ..SAME
    },
];

// A standby that ends at the reply, where the greeting has 15 bytes, since the primary has another entry there.
const OTHER: Trial = Trial {
    replies: &[Told::Hello, Told::OwnAffirm, Told::Last],
    lines: b"HELLO OPS KO\nNEXT 1\n",
    end: Broken { at: 15 },
    ..SAME
};

// Or since that is at another position, or there is none, or nothing comes, or the primary refuses, or source or sink fails.
const ENDS: &[Trial] = &[
    OTHER,
    Trial {
        journal: ONE,
        replies: &[Told::Hello, Told::Affirm, Told::Last],
        lines: b"HELLO OPS KO\nNEXT 0\n",
        found: (1, 0),
        ..OTHER
    },
    Trial {
        replies: &[Told::Hello, Told::Text(b"ok 1 none\n")],
        ..OTHER
    },
    Trial {
        replies: &[Told::Hello],
        ..OTHER
    },
    Trial {
        replies: &[Told::Hello, Told::Text(b"no 0 32 ahead 0\n")],
        end: Refused { number: 32 },
        ..OTHER
    },
    Trial {
        replies: &[Told::Hello],
        faults: [2, 0, 0],
        end: SourceFault,
        ..OTHER
    },
    Trial {
        faults: [0, 2, 0],
        lines: b"HELLO OPS KO\n",
        end: SinkFault,
        ..OTHER
    },
];

#[test]
fn a_standby_that_has_the_same_entry_goes_on(rt: HostRuntime) -> Result<(), Fail> {
    assert!(rt; all_go(&rt, rt.alloc(), GOES_ON)?);
    Ok(())
}

#[test]
fn a_standby_that_has_another_entry_ends(rt: HostRuntime) -> Result<(), Fail> {
    assert!(rt; all_go(&rt, rt.alloc(), ENDS)?);
    Ok(())
}
