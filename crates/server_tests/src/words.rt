//! Words that are out of form by an empty one, or by being none. Transcripts show all others.

use crate::program::{SCRIPT, Trial, all_end};
use std::test::Fail;

// An empty name is one of a file that is not there.
const NAMED: Trial<'static> = Trial {
    words: &["script", "", ""],
    files: &[],
    input: b"HELLO A KA\nNETS P\n",
    status: 11,
    errors: b"file fault\n",
    ..SCRIPT
};

const REFUSED: Trial<'static> = Trial {
    words: &[],
    status: 2,
    errors: b"bad words\n",
    ..NAMED
};

const WORDS: &[Trial<'static>] = &[
    NAMED,
    Trial {
        words: &["roll", "", "", ""],
        ..NAMED
    },
    REFUSED,
    Trial {
        words: &[""],
        ..REFUSED
    },
    Trial {
        words: &["", "T", "j"],
        ..REFUSED
    },
    Trial {
        words: &["script", "T", "j", "--workers", ""],
        ..REFUSED
    },
    Trial {
        words: &["gen", ""],
        ..REFUSED
    },
    Trial {
        words: &["roll", "T", "j", "N", "--matured", ""],
        ..REFUSED
    },
    Trial {
        words: &["roll", "T", "j", "N", "--cancel", "--cancel"],
        ..REFUSED
    },
    Trial {
        words: &["roll", "T", "j", "N", "--cancel="],
        ..REFUSED
    },
    Trial {
        words: &["replay", "T", "j", "--cancel"],
        ..REFUSED
    },
];

#[test]
fn an_empty_word_is_a_name_and_no_number_or_form(rt: HostRuntime) -> Result<(), Fail> {
    all_end(&rt, WORDS)
}
