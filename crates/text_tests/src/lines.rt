//! Each command on trades read once.

use command_text::read_line;
use command_types::{Line, Side};
use units_core::{Day, Name};

/// What a text says, if it is a line of the grammar.
pub(crate) fn read(text: &str) -> Option<Line> {
    if text.len() > 4096 {
        return None;
    }
    match read_line(text.as_bytes()) {
        Ok(line) => Some(line),
        Err(_) => None,
    }
}

/// Whether the name has this text.
pub(crate) fn is(name: Name, text: &str) -> bool {
    name.text() == text.as_bytes()
}

/// Whether the day has this text.
pub(crate) fn is_on(day: Day, text: &str) -> bool {
    day.text().as_slice() == text.as_bytes()
}

/// Whether the text is read as a greeting of A by the key B.
fn greets(text: &str) -> bool {
    let line = read(text);
    matches!(&line, Some(Line::Hello { name, key }) if is(*name, "A") && is(*key, "B"))
}

/// Whether the text is read as a trade of 10 in P, from A to B, of 2026-03-01.
fn alleges(text: &str) -> bool {
    let line = read(text);
    match &line {
        Some(
            Line::Trade {
                seller,
                buyer,
                product,
                amount,
                day,
            },
        ) => {
            is(*seller, "A")
                && is(*buyer, "B")
                && is(*product, "P")
                && amount.get() == 10
                && is_on(*day, "2026-03-01")
        }
        _ => false,
    }
}

/// Whether the text is read as a question for the nets in P.
fn asks_nets(text: &str) -> bool {
    let line = read(text);
    matches!(&line, Some(Line::Nets { product }) if is(*product, "P"))
}

/// Whether commands on one trade, and of one word, are read as what they say.
fn says_numbers() -> bool {
    matches!(read("AFFIRM 7"), Some(Line::Affirm { trade: 7 }))
        && matches!(read("END 0"), Some(Line::End { trade: 0 }))
        && matches!(
            read("HOLD 1000000000000000000"),
            Some(Line::Hold {
                trade: 1_000_000_000_000_000_000
            })
        )
        && matches!(read("FREE 7"), Some(Line::Free { trade: 7 }))
        && matches!(read("STATEMENT"), Some(Line::Statement))
        && matches!(read("BYE"), Some(Line::Bye))
}

#[test]
fn lines_on_trades_are_read(rt: HostRuntime) {
    assert!(rt; greets("HELLO A B") && alleges("TRADE A B P 10 2026-03-01"));
    assert!(rt; asks_nets("NETS P") && says_numbers());
}

/// Whether the line sets a tolerance towards B in P of this side, with this floor and ceiling.
fn is_tolerance(line: &Line, want: Side, least: u64, most: Option<u64>) -> bool {
    match line {
        Line::Tol {
            other,
            product,
            side,
            floor,
            ceiling,
        } => {
            let is_most = match (*ceiling, most) {
                (None, None) => true,
                (Some(ceiling), Some(most)) => ceiling.get() == most,
                _ => false,
            };
            is(*other, "B") && is(*product, "P") && *side == want && floor.get() == least && is_most
        }
        _ => false,
    }
}

/// Whether the text sets such a tolerance.
fn sets(text: &str, want: Side, least: u64, most: Option<u64>) -> bool {
    match read(text) {
        Some(line) => is_tolerance(&line, want, least, most),
        None => false,
    }
}

#[test]
fn tolerances_have_a_ceiling_or_none(rt: HostRuntime) {
    let most = 1_000_000_000_000_000_000;
    assert!(rt; sets("TOL B P out 3 -", Side::Out, 3, None));
    assert!(rt; sets("TOL B P in 0 1000000000000000000", Side::In, 0, Some(most)));
}
