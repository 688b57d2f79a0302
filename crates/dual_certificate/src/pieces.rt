//! The pieces of a text between one byte and the next, as lines and words.

use std::marker::Model;

/// The words of a line, with one space between them. Contracts see the words that are still to be read.
#[derive(Drop)]
pub(crate) struct Words<'a> {
    rest: Option<&'a [u8]>,
}

impl<'a> Model for Words<'a> {
    ghost use Rattle.std.specs.Prelude.{List, ℕ};
    ghost use Rattle.std.specs.Option.{option_copied};
    ghost use Rattle.dual_certificate.specs.ProposalLine.{words_left};

    ghost Value = { List (List ℕ) };

    ghost view = { λ w. words_left (option_copied w.rest) };
}

ghost use Rattle.std.specs.Prelude.{◌≡◌, ◌<◌, ◌==◌, [], ◌∷◌, IfSome, IfNone, length, position};
ghost use Rattle.dual_certificate.specs.ProposalLine.{pieces};

fn place_of(text: &[u8], byte: u8) -> Option<usize>
    ensures place { result ≡ position (λ b. b == byte) text.now }
    ensures within { IfSome result (λ place. place < length text.now) }
{
    text.iter().position(|b| *b == byte)
}

/// What stands before the first such byte, and what behind it, if there is one.
#[tactic(auto, using(crate::proofs::PieceFacts::cut_at, crate::proofs::PieceFacts::cut_none))]
pub(crate) fn cut(text: &[u8], byte: u8) -> Option<(&[u8], &[u8])>
    ensures some { IfSome result (λ t. pieces byte text.now ≡ t.0.now ∷ pieces byte t.1.now) }
    ensures none { IfNone result (pieces byte text.now ≡ text.now ∷ []) }
    ensures shorter { IfSome result (λ t. length t.1.now < length text.now) }
{
    match place_of(text, byte) {
        None => None,
        Some(at) => Some((&text[..at], &text[at + 1..])),
    }
}

impl<'a> Words<'a> {
    /// The words of a line.
    pub(crate) fn new(line: &'a [u8]) -> Words<'a>
        ensures { result ≡ pieces 32 line.now }
    {
        Words { rest: Some(line) }
    }

    /// Takes the next word. There is none exactly where all words were taken.
    pub(crate) fn next_word(&mut self) -> Option<&'a [u8]>
        ensures some { IfSome result (λ word. self.old ≡ word.now ∷ self.new) }
        ensures none { IfNone result (self.old ≡ []) }
        ensures still { IfNone result (self.new ≡ self.old) }
    {
        let Some(text) = self.rest else {
            return None;
        };
        match cut(text, b' ') {
            Some((word, rest)) => {
                self.rest = Some(rest);
                Some(word)
            }
            None => {
                self.rest = None;
                Some(text)
            }
        }
    }
}
