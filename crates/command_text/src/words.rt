//! The words of a line, one after another.

use std::marker::Model;

/// A line that is read word by word; words have one space between them. Contracts see the words that are still to be
/// read, the place of the first of them, and the line's length.
#[derive(Drop)]
pub(crate) struct Words<'a> {
    line: &'a [u8],
    at: usize,
}

impl<'a> Model for Words<'a> {
    ghost use Rattle.std.specs.Prelude.{ℕ, ◌+◌, ◌≤◌, length};
    ghost use Rattle.command_types.specs.Grammar.{Cursor};
    ghost use Rattle.command_text.specs.Reading.{cursor_at};
    ghost use Rattle.units_core.specs.declared.limits.TheConstants.{MOST_LINE};

    ghost Value = { Cursor };

    ghost view = { λ w. cursor_at w.line.now w.at };

    ghost invariant = { λ w. (length w.line.now ≤ MOST_LINE) × (w.at ≤ length w.line.now + 1) };
}

ghost use Rattle.std.specs.Prelude.{◌≡◌, ◌+◌, ◌<◌, ◌≤◌, [], ◌∷◌, IfSome, IfNone, length, take};
ghost use Rattle.command_types.specs.Grammar.{words_of};
ghost use Rattle.command_text.specs.Reading.{words_from, cursor_at, IsNext};
ghost use Rattle.units_core.specs.declared.limits.TheConstants.{MOST_LINE};

// Where the first word of a text ends: at the first space, or at the text's end.
fn word_end(text: &[u8]) -> usize
    ensures within { result ≤ length text.now }
    ensures words { words_of text.now ≡ take result text.now ∷ words_from text.now (result + 1) }
{
    for (i, byte) in text.iter().enumerate() {
        if *byte == b' ' {
            return i;
        }
    }
    text.len()
}

impl<'a> Words<'a> {
    /// The words of a line.
    pub(crate) fn new(line: &'a [u8]) -> Words<'a>
        requires { length line.now ≤ MOST_LINE }
        ensures { result ≡ cursor_at line.now 0 }
    {
        Words { line, at: 0 }
    }

    /// The place of the next word, counted in bytes from the line's start.
    pub(crate) fn place(&self) -> u32
        ensures { result ≡ self.now.place }
    {
        self.at as u32
    }

    /// The length of the line.
    pub(crate) fn size(&self) -> u32
        ensures { result ≡ self.now.size }
    {
        self.line.len() as u32
    }

    /// Takes the next word. There is none exactly where all words were taken.
    pub(crate) fn next_word(&mut self) -> Option<&'a [u8]>
        ensures some { IfSome result (λ word. IsNext self.old word.now self.new) }
        ensures none { IfNone result (self.old.words ≡ []) }
        ensures still { IfNone result (self.new ≡ self.old) }
    {
        if self.at > self.line.len() {
            return None;
        }
        let rest = &self.line[self.at..];
        let end = word_end(rest);
        let word = &rest[..end];
        self.at += end + 1;
        Some(word)
    }
}
