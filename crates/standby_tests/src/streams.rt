//! A standby over bytes in memory: what it writes, how it ends, and what it has then.

use crate::replies::Told;
use crate::trials::{Trial, all_go};
use standby::FollowEnd::{Broken, Caught, DiskFault, Refused, SinkFault, SourceFault};
use std::test::Fail;

// What a standby writes: its greeting, and so many questions.
const GREETED: &[u8] = b"HELLO OPS KO\n";

const ASKED: &[u8] = b"HELLO OPS KO\nNEXT 0\n";

const ASKED_AGAIN: &[u8] = b"HELLO OPS KO\nNEXT 0\nNEXT 1\n";

const ASKED_ALL: &[u8] = b"HELLO OPS KO\nNEXT 0\nNEXT 1\nNEXT 2\n";

const ALL: &[u8] = b"HELLO OPS KO\nNEXT 0\nNEXT 1\nNEXT 2\nBYE\n";

const WHOLE: &[Told] = &[Told::Hello, Told::Trade, Told::Affirm, Told::Last];

// A standby on no journal, whose primary says nothing.
const BEGUN: Trial = Trial {
    journal: b"",
    compare: false,
    replies: &[],
    faults: [0, 0, 0],
    lines: GREETED,
    end: Broken { at: 0 },
    found: (0, 0),
};

// Ends with a peer that says what may stand there.
const ENDS: &[Trial] = &[
    Trial {
        replies: WHOLE,
        lines: ALL,
        end: Caught,
        found: (2, 10),
        ..BEGUN
    },
    BEGUN,
    Trial {
        replies: &[Told::Text(b"no 0 2 bad-key\n")],
        end: Refused { number: 2 },
        ..BEGUN
    },
    Trial {
        replies: &[Told::Hello, Told::Text(b"no 9 31 gone 9\n")],
        lines: ASKED,
        end: Refused { number: 31 },
        ..BEGUN
    },
    Trial {
        replies: &[Told::Hello, Told::Trade, Told::Text(b"no 0 32 ahead 0\n")],
        lines: ASKED_AGAIN,
        end: Refused { number: 32 },
        found: (1, 0),
        ..BEGUN
    },
];

// Replies that may not stand there, or come in part. The greeting has 15 bytes, the first entry's reply 50.
const BROKEN: &[Trial] = &[
    Trial {
        replies: &[Told::Hello, Told::Trade, Told::Trade],
        lines: ASKED_AGAIN,
        end: Broken { at: 65 },
        found: (1, 0),
        ..BEGUN
    },
    Trial {
        replies: &[Told::Hello, Told::Trade, Told::OwnAffirm],
        lines: ASKED_AGAIN,
        end: Broken { at: 65 },
        found: (1, 0),
        ..BEGUN
    },
    Trial {
        replies: &[Told::Hello, Told::Trade, Told::Hello],
        lines: ASKED_AGAIN,
        end: Broken { at: 65 },
        found: (1, 0),
        ..BEGUN
    },
    Trial {
        replies: &[Told::Hello, Told::Affirm],
        lines: ASKED,
        end: Broken { at: 15 },
        ..BEGUN
    },
    Trial {
        replies: &[Told::Hello, Told::Text(b"ok 0 none")],
        lines: ASKED,
        end: Broken { at: 15 },
        ..BEGUN
    },
    Trial {
        replies: &[Told::Hello, Told::Text(b"ok 1 none\n")],
        lines: ASKED,
        end: Broken { at: 15 },
        ..BEGUN
    },
    Trial {
        replies: &[Told::Hello, Told::Text(b"ok 1 entry 1 1\nx\n")],
        lines: ASKED,
        end: Broken { at: 15 },
        ..BEGUN
    },
];

// The first read gives all that there is. Opening takes ten calls of the disk, and an entry four.
const FAULTS: &[Trial] = &[
    Trial {
        replies: WHOLE,
        faults: [1, 0, 0],
        end: SourceFault,
        ..BEGUN
    },
    Trial {
        replies: &[Told::Hello, Told::Trade],
        faults: [2, 0, 0],
        lines: ASKED_AGAIN,
        end: SourceFault,
        found: (1, 0),
        ..BEGUN
    },
    Trial {
        replies: WHOLE,
        faults: [0, 1, 0],
        lines: b"",
        end: SinkFault,
        ..BEGUN
    },
    Trial {
        replies: WHOLE,
        faults: [0, 3, 0],
        lines: ASKED,
        end: SinkFault,
        found: (1, 0),
        ..BEGUN
    },
    Trial {
        replies: WHOLE,
        faults: [0, 5, 0],
        lines: ASKED_ALL,
        end: SinkFault,
        found: (2, 10),
        ..BEGUN
    },
    Trial {
        replies: WHOLE,
        faults: [0, 0, 15],
        lines: ASKED_AGAIN,
        end: DiskFault,
        found: (1, 0),
        ..BEGUN
    },
];

#[test]
fn a_standby_ends_with_its_peer(rt: HostRuntime) -> Result<(), Fail> {
    assert!(rt; all_go(&rt, rt.alloc(), ENDS)?);
    Ok(())
}

#[test]
fn a_reply_that_may_not_stand_there_ends_it(rt: HostRuntime) -> Result<(), Fail> {
    assert!(rt; all_go(&rt, rt.alloc(), BROKEN)?);
    Ok(())
}

#[test]
fn a_fault_of_source_sink_or_disk_is_told(rt: HostRuntime) -> Result<(), Fail> {
    assert!(rt; all_go(&rt, rt.alloc(), FAULTS)?);
    Ok(())
}
