//! Each command on cycles read once.

use crate::lines::{is, is_on, read};
use command_types::{Line, Mode};

/// Whether the text is read as a freeze of 2026-03-01.
fn freezes(text: &str) -> bool {
    let line = read(text);
    matches!(&line, Some(Line::Freeze { day }) if is_on(*day, "2026-03-01"))
}

/// Whether the text is read as a question for the limits of P.
fn asks_limits(text: &str) -> bool {
    let line = read(text);
    matches!(&line, Some(Line::Limits { product }) if is(*product, "P"))
}

/// Whether the text is read as a row of 5 in P, from A to B.
fn notes_row(text: &str) -> bool {
    let line = read(text);
    match &line {
        Some(
            Line::Row {
                product,
                seller,
                buyer,
                amount,
            },
        ) => is(*product, "P") && is(*seller, "A") && is(*buyer, "B") && amount.get() == 5,
        _ => false,
    }
}

/// Whether the text is read as the potential -7 of A in P.
fn notes_potential(text: &str) -> bool {
    let line = read(text);
    match &line {
        Some(
            Line::Pot {
                product,
                member,
                value,
            },
        ) => is(*product, "P") && is(*member, "A") && *value == -7,
        _ => false,
    }
}

/// Whether the lines on a cycle's course are read as what they say.
fn says_course() -> bool {
    matches!(
        read("BEGIN 1 conservative"),
        Some(Line::Begin {
            cycle: 1,
            mode: Mode::Conservative
        })
    ) && matches!(
        read("PROPOSE 1 hybrid"),
        Some(Line::Propose {
            cycle: 1,
            mode: Mode::Hybrid
        })
    ) && matches!(
        read("BEGIN 1 free"),
        Some(Line::Begin {
            cycle: 1,
            mode: Mode::Free
        })
    ) && matches!(
        read("POST 1 2"),
        Some(Line::Post {
            cycle: 1,
            version: 2
        })
    ) && matches!(read("CANCEL 1"), Some(Line::Cancel { cycle: 1 }))
}

/// Whether the lines of a vote are read as what they say.
fn says_votes() -> bool {
    matches!(read("PLAN 1"), Some(Line::Plan { cycle: 1 }))
        && matches!(
            read("ACCEPT 1 2"),
            Some(Line::Accept {
                cycle: 1,
                version: 2
            })
        )
        && matches!(
            read("DECLINE 1 2"),
            Some(Line::Decline {
                cycle: 1,
                version: 2
            })
        )
}

#[test]
fn lines_on_cycles_are_read(rt: HostRuntime) {
    assert!(rt; freezes("FREEZE 2026-03-01") && asks_limits("LIMITS P"));
    assert!(rt; notes_row("ROW P A B 5") && notes_potential("POT P A -7"));
    assert!(rt; says_course() && says_votes());
}
