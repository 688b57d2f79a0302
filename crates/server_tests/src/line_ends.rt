//! Where a line of a session ends.

use crate::program::{SCRIPT, Text, Trial, all_end};
use std::test::Fail;

// One carriage return before a line feed is dropped, one without it is not.
const LINE_ENDS: &[Trial<'static>] = &[
    Trial {
        input: b"HELLO A KA\r\nNETS P\r\n",
        output: Text::Is(b"ok 0 hello A\nok 0 nets 0 0 0\n"),
        ..SCRIPT
    },
    Trial {
        input: b"HELLO A KA\nNETS P\r",
        output: Text::Is(b"ok 0 hello A\nno 0 3 bad-line 5\n"),
        ..SCRIPT
    },
    Trial {
        input: b"HELLO A KA\nNETS P",
        output: Text::Is(b"ok 0 hello A\nok 0 nets 0 0 0\n"),
        ..SCRIPT
    },
    Trial {
        input: b"\n\r\n",
        output: Text::Is(b"no 0 3 bad-line 0\nno 0 3 bad-line 0\n"),
        ..SCRIPT
    },
    Trial {
        input: b"\0\n",
        output: Text::Is(b"no 0 3 bad-line 0\n"),
        ..SCRIPT
    },
    Trial {
        input: b"\xff\xff\xff\xff\n",
        output: Text::Is(b"no 0 3 bad-line 0\n"),
        ..SCRIPT
    },
    Trial {
        input: b"\0\n\xff\nHELLO A KA\n\xff\xff",
        output: Text::Is(
            b"no 0 3 bad-line 0\nno 0 3 bad-line 0\nok 0 hello A\nno 0 3 bad-line 0\n",
        ),
        ..SCRIPT
    },
];

#[test]
fn a_line_ends_at_its_line_feed(rt: HostRuntime) -> Result<(), Fail> {
    all_end(&rt, LINE_ENDS)
}
