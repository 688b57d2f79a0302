//! Transcripts: what a person sees who runs the program at a terminal. A text of whole lines:
//!
//!     # A trade is alleged by its seller and affirmed by its buyer.   a remark
//!                                                                     an empty line is one, too
//!     $ script roster.csv journal                                     a run, by its words
//!     > HELLO A KA                                                    a line of its input
//!     ok 0 hello A                                                    a line that it writes
//!     > TRADE A B P 10 2026-03-02
//!     ok 1 trade 1
//!     raw 40b7cb6900000000                                            bytes that it writes, in hexadecimal, and a line feed
//!     status 6                                                        its status, where that is not 0
//!
//! A `$` begins a run, which goes on up to the next one. The first run finds an empty disk, and each later one what a crash
//! leaves of the disk of the run before it. The files that the words name lie where the player runs. Lines of the output and
//! of the errors stand in the order in which they are written, behind the line of input that they answer.

use crate::flaw::Flaw;
use std::alloc::{AllocError, Global};

/// A line of a transcript, with its line feed, and its number, the first being 1.
#[derive(Clone, Copy)]
pub struct Line<'a> {
    pub number: usize,
    pub text: &'a str,
}

impl<'a> Line<'a> {
    /// What is typed, if it is a line of input.
    pub fn typed(&self) -> Option<&'a str> {
        self.text.strip_prefix("> ")
    }

    /// The digits of the bytes that are written, if it stands for some.
    pub fn raw(&self) -> Option<&'a str> {
        self.text.strip_prefix("raw ")
    }

    // Whether it says nothing of a run.
    fn is_remark(&self) -> bool {
        self.text == "\n" || self.text.starts_with('#')
    }
}

/// A run of the program: its words, and the lines that are seen of it.
#[derive(Drop)]
pub struct Run<'a> {
    /// The line that begins it.
    pub number: usize,
    words: &'a str,
    pub lines: Vec<Line<'a>>,
}

impl Run<'_> {
    /// Its words, without the program's name. The only error is want of memory.
    pub fn words(&self, alloc: Global) -> Result<Vec<String>, AllocError> {
        let mut words = Vec::new(alloc);
        for word in self.words.split_ascii_whitespace() {
            words.push(String::from_str(alloc, word)?)?;
        }
        Ok(words)
    }

    /// Its whole input. The only error is want of memory.
    pub fn input(&self, alloc: Global) -> Result<Vec<u8>, AllocError> {
        let mut input = Vec::new(alloc);
        for line in &self.lines {
            if let Some(typed) = line.typed() {
                input.extend_from_slice(typed.as_bytes())?;
            }
        }
        Ok(input)
    }
}

/// The runs of a transcript, at least one. The error says why it can't be read, or that there is no memory.
pub fn runs_of<'a>(alloc: Global, text: &'a str) -> Result<Vec<Run<'a>>, Flaw> {
    if !text.ends_with('\n') {
        return Err(Flaw::Unended);
    }
    let mut runs: Vec<Run<'a>> = Vec::new(alloc);
    for (place, text) in text.split_inclusive('\n').enumerate() {
        let number = place.saturating_add(1);
        let line = Line { number, text };
        if let Some(words) = text.strip_prefix("$ ") {
            let lines = Vec::new(alloc);
            runs.push(Run {
                number,
                words,
                lines,
            })?;
        } else if !line.is_remark() {
            match runs.last_mut() {
                Some(run) => run.lines.push(line)?,
                None => return Err(Flaw::BeforeRuns(number)),
            }
        }
    }
    if runs.is_empty() {
        return Err(Flaw::NoRun);
    }
    Ok(runs)
}
