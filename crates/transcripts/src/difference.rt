//! Where what is seen is not the transcript.

use crate::flaw::Flaw;
use crate::screen::{Pace, line_size};
use crate::transcript::{Line, Run};
use std::alloc::{AllocError, Global};
use std::str;

/// The first place where what is seen is not the next line of a run.
#[derive(Clone, Copy)]
pub struct Difference<'a> {
    // The number and the text of that line, or, behind the last line, no text.
    number: usize,
    wanted: &'a str,
    // What is seen from there on.
    came: &'a [u8],
}

impl Difference<'_> {
    /// What is told of it. The only error is want of memory.
    pub fn told(&self, alloc: Global, pace: Pace) -> Result<Flaw, AllocError> {
        let came = &self.came[..line_size(self.came)];
        let came = str::from_utf8(came).unwrap_or("no text");
        Ok(Flaw::Differs {
            line: self.number,
            pace: pace.words(),
            wanted: String::from_str(alloc, self.wanted)?,
            came: String::from_str(alloc, came)?,
        })
    }
}

// Whether a line of a run is to be seen.
fn is_seen(line: &Line<'_>, pace: Pace) -> bool {
    match pace {
        Pace::Typed => true,
        Pace::Piped => line.typed().is_none(),
    }
}

// A hexadecimal digit.
fn digit(byte: u8) -> Option<u8> {
    match byte {
        b'0'..=b'9' => Some(byte - b'0'),
        b'a'..=b'f' => Some(byte - b'a' + 10),
        _ => None,
    }
}

// What is seen behind a byte, which two digits tell, if it comes first.
fn behind_byte<'a>(seen: &'a [u8], digits: &[u8]) -> Option<&'a [u8]> {
    let [high, low] = digits else {
        return None;
    };
    let byte = (digit(*high)? << 4) | digit(*low)?;
    let (first, behind) = seen.split_first()?;
    if *first != byte {
        return None;
    }
    Some(behind)
}

// What is seen behind bytes that digits tell, and a line feed, if they come first.
fn behind_raw<'a>(seen: &'a [u8], digits: &str) -> Option<&'a [u8]> {
    let mut rest = seen;
    for pair in digits.trim_end().as_bytes().chunks(2) {
        rest = behind_byte(rest, pair)?;
    }
    rest.strip_prefix(b"\n")
}

// What is seen behind a line, if that comes first.
fn behind_line<'a>(seen: &'a [u8], line: &Line<'_>) -> Option<&'a [u8]> {
    match line.raw() {
        Some(digits) => behind_raw(seen, digits),
        None => seen.strip_prefix(line.text.as_bytes()),
    }
}

/// The first difference between the lines of a run and what is seen; none where that is just those lines.
pub fn first_difference<'a>(
    run: &'a Run<'_>,
    pace: Pace,
    seen: &'a [u8],
) -> Option<Difference<'a>> {
    let mut rest = seen;
    let mut number = run.number;
    for line in &run.lines {
        number = line.number;
        if is_seen(line, pace) {
            match behind_line(rest, line) {
                Some(behind) => rest = behind,
                None => {
                    return Some(Difference {
                        number,
                        wanted: line.text,
                        came: rest,
                    });
                }
            }
        }
    }
    if rest.is_empty() {
        return None;
    }
    Some(Difference {
        number: number.saturating_add(1),
        wanted: "",
        came: rest,
    })
}
