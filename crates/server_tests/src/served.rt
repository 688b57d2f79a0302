//! The program as a service: seats at the doors of a listener, over one journal.

ghost use Rattle.std.specs.Prelude.{IfOk};
ghost use Rattle.doors.specs.MemoryDoor.{IsFresh};

use crate::journals::NONE;
use crate::program::{SCRIPT, Text, Trial, so};
use doors::{MemoryConnection, MemoryListener};
use outside::{MemorySink, MemorySource};
use std::alloc::{AllocError, AllocGlobal, Global};
use std::sync::Wait;
use std::test::Fail;
use std::thread::Threads;

/// What A and B say first, and then A; and the replies.
pub const FIRST: &str = "HELLO A KA\nTRADE A B P 10 2026-03-02\nHELLO B KB\nAFFIRM 1\nNETS P\n";

pub const FIRST_REPLIES: &str =
    "ok 0 hello A\nok 1 trade 1\nok 1 hello B\nok 2 live 1\nok 2 nets 0 10 -10\n";

pub const SECOND: &str = "HELLO A KA\nNETS P\n";

pub const SECOND_REPLIES: &str = "ok 2 hello A\nok 2 nets 10 0 10\n";

// The journal of both changes, which came from seat 1.
const SEATED: &[u8] =
    b"OTCJRNLC\0\x19\0\0\0\0\0\0\0\0\0\0\0\0\0\0\0\0\0\0\0\x01\x08\0\0\0MOMENTS2\x01\x21\0\0\0\x40\xb7\xcb\x69\0\0\0\0\x01\0\0\0\x01A\x01\x01A\x01B\x01P\x0a\0\0\0\0\0\0\0\xea\x07\x03\x02\x01\x17\0\0\0\x40\xb7\xcb\x69\0\0\0\0\x01\0\0\0\x01B\x02\x01\0\0\0\0\0\0\0\0";

// And from seat 4.
const SEATED_AT_THE_LAST: &[u8] =
    b"OTCJRNLC\0\x19\0\0\0\0\0\0\0\0\0\0\0\0\0\0\0\0\0\0\0\x01\x08\0\0\0MOMENTS2\x01\x21\0\0\0\x40\xb7\xcb\x69\0\0\0\0\x04\0\0\0\x01A\x01\x01A\x01B\x01P\x0a\0\0\0\0\0\0\0\xea\x07\x03\x02\x01\x17\0\0\0\x40\xb7\xcb\x69\0\0\0\0\x04\0\0\0\x01B\x02\x01\0\0\0\0\0\0\0\0";

/// A service with the numbers that no option gives, over no journal. It reads no input.
pub const SERVICE: Trial<'static> = Trial {
    words: &["serve", "T", "j", "a"],
    failing_read: 1,
    output: Text::Is(b"history 2\n"),
    ..SCRIPT
};

// A service: what comes to which of the listener's doors, which call of that door and of the listener fails, 0 for none, how many
// doors come back, the replies at that one, and the journal then.
#[derive(Clone, Copy)]
struct Case {
    trial: Trial<'static>,
    door: u32,
    texts: &'static [&'static str],
    door_call: u64,
    listener_call: u64,
    doors: usize,
    replies: &'static [&'static str],
    after: &'static [u8],
}

const WHOLE: Case = Case {
    trial: SERVICE,
    door: 0,
    texts: &[FIRST, SECOND],
    door_call: 0,
    listener_call: 0,
    doors: 4,
    replies: &[FIRST_REPLIES, SECOND_REPLIES],
    after: SEATED,
};

const FAILS: Trial<'static> = Trial {
    status: 10,
    errors: b"listener fault\n",
    ..SERVICE
};

// The second call of the door fails: the first connection was served, and so were the other seats.
const DOOR_FAILS: Case = Case {
    trial: FAILS,
    door_call: 2,
    replies: &[FIRST_REPLIES],
    ..WHOLE
};

// No seat begins, and the doors handed out come back.
const LISTENER_FAILS: Case = Case {
    trial: Trial {
        output: Text::Is(b""),
        ..FAILS
    },
    replies: &[],
    after: NONE,
    ..WHOLE
};

const CASES: &[Case] = &[
    WHOLE,
    Case {
        trial: Trial {
            output: Text::Is(b"history 0\n"),
            ..SERVICE
        },
        texts: &[],
        replies: &[],
        after: NONE,
        ..WHOLE
    },
    // Another door, and a service that goes on from what that one's journal keeps.
    Case {
        door: 3,
        texts: &[FIRST],
        replies: &[FIRST_REPLIES],
        after: SEATED_AT_THE_LAST,
        ..WHOLE
    },
    Case {
        trial: Trial {
            disk: SEATED_AT_THE_LAST,
            ..SERVICE
        },
        texts: &[SECOND],
        replies: &[SECOND_REPLIES],
        after: SEATED_AT_THE_LAST,
        ..WHOLE
    },
    // So many seats.
    Case {
        trial: Trial {
            words: &["serve", "T", "j", "a", "--seats", "1"],
            ..SERVICE
        },
        doors: 1,
        ..WHOLE
    },
    Case {
        trial: Trial {
            words: &["serve", "--seats=64", "T", "j", "--workers", "64", "a"],
            ..SERVICE
        },
        doors: 64,
        ..WHOLE
    },
    // So many connections of each.
    Case {
        trial: Trial {
            words: &["serve", "T", "j", "--connections=2", "--", "a"],
            ..SERVICE
        },
        ..WHOLE
    },
    Case {
        trial: Trial {
            words: &["serve", "T", "j", "a", "--connections", "1"],
            ..SERVICE
        },
        replies: &[FIRST_REPLIES],
        ..WHOLE
    },
    DOOR_FAILS,
    // The output takes a front of the line.
    Case {
        trial: Trial {
            room: 9,
            status: 5,
            output: Text::Is(b"history 2"),
            errors: b"sink fault\n",
            ..SERVICE
        },
        ..WHOLE
    },
    // The door's fault comes before the output's.
    Case {
        trial: Trial {
            room: 3,
            output: Text::Is(b"his"),
            ..FAILS
        },
        ..DOOR_FAILS
    },
    Case {
        listener_call: 1,
        doors: 0,
        ..LISTENER_FAILS
    },
    Case {
        listener_call: 2,
        doors: 0,
        ..LISTENER_FAILS
    },
    Case {
        listener_call: 3,
        doors: 1,
        ..LISTENER_FAILS
    },
    Case {
        listener_call: 4,
        doors: 2,
        ..LISTENER_FAILS
    },
    Case {
        listener_call: 5,
        doors: 3,
        ..LISTENER_FAILS
    },
];

// A connection whose input gives this text.
fn connection(alloc: Global, text: &str) -> Result<MemoryConnection, AllocError>
    ensures { IfOk result (λ c. IsFresh c) }
{
    Ok(MemoryConnection {
        input: MemorySource::new(alloc, text.as_bytes())?,
        output: MemorySink::new(alloc, 4096)?,
    })
}

// A listener to one of whose doors these connections come.
fn listener_of(alloc: Global, case: &Case) -> Result<MemoryListener, AllocError> {
    let mut listener = MemoryListener::new(alloc);
    for text in case.texts {
        listener.add(case.door, connection(alloc, text)?)?;
    }
    listener.fail_door_at(case.door, case.door_call)?;
    listener.fail_at(case.listener_call)?;
    Ok(listener)
}

// Whether as many doors came back as are to, and the connections of that one took the replies.
fn took(listener: &MemoryListener, case: &Case) -> bool {
    let back = listener.back();
    if back.len() != case.doors {
        return false;
    }
    let Some(door) = back.get(case.door as usize) else {
        return case.replies.is_empty();
    };
    let back = door.back();
    back.len() == case.replies.len()
        && back.iter().zip(case.replies).all(|(connection, text)| connection.output.bytes()
            == text.as_bytes())
}

fn is_served<R: Threads + Wait + Sync + AllocGlobal>(rt: &R, case: &Case) -> Result<(), Fail> {
    let mut listener = listener_of(rt.alloc(), case)?;
    let left = case.trial.left_at(rt, &mut listener)?;
    so(
        left.synced.as_slice() == case.after,
        "the journal is otherwise",
    )?;
    so(took(&listener, case), "the replies are otherwise")
}

fn all_are_served<R: Threads + Wait + Sync + AllocGlobal>(rt: &R) -> Result<(), Fail> {
    for case in CASES {
        is_served(rt, case)?;
    }
    Ok(())
}

#[test]
fn a_service_ends_as_its_listener_its_seats_its_disk_and_its_output_do(
    rt: HostRuntime,
) -> Result<(), Fail> {
    all_are_served(&rt)
}
