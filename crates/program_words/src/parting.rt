//! The words behind a form's name: the plain ones, and the options.
//!
//!     --name V, --name=V       an option with its value, a number or a day
//!     --compare, --cancel      options that have none
//!     --                       ends the options: all words behind it are plain
//!     -, words without a dash  plain

ghost use Rattle.std.specs.Prelude.{◌≡◌, ◌<◌, ◌==◌, Some, IfSome, map, position, option_map, string_bytes, length};
ghost use Rattle.program_words.specs.Parting.{is_dashed, with_plain, with_value, with_compare, with_cancel, with_name, with_dashed, with_next, with_word, no_parts, parts_of, read_parts};

use crate::options::{OptionName, Options, option_word};
use arrayvec::ArrayVec;

/// How many plain words a form has at the most.
const MOST_PLAIN: usize = 4;

/// Some words, parted.
#[derive(Drop)]
pub struct Parts<'a> {
    pub plain: ArrayVec<&'a str, MOST_PLAIN>,
    pub options: Options,
    waiting: Option<OptionName>,
    ended: bool,
}

// Whether a word begins with a dash and has more behind it.
fn is_dashed(word: &[u8]) -> bool
    ensures { result ≡ is_dashed word.now }
{
    match word {
        [] => false,
        [byte, rest @ ..] => *byte == b'-' && !rest.is_empty(),
    }
}

fn place_of_equals(word: &[u8]) -> Option<usize>
    ensures value { result ≡ position (λ byte. byte == 61) word.now }
    ensures within { IfSome result (λ at. at < length word.now) }
{
    word.iter().position(|byte| *byte == b'=')
}

impl<'a> Parts<'a> {
    // No words.
    fn new() -> Parts<'a>
        ensures { read_parts result ≡ no_parts }
    {
        Parts {
            plain: ArrayVec::new(),
            options: Options {
                workers: None,
                seats: None,
                connections: None,
                idle: None,
                matured: None,
                compare: false,
                cancel: false,
            },
            waiting: None,
            ended: false,
        }
    }

    // Puts one more plain word behind the others; none where there is no place for it.
    fn put_plain(&mut self, word: &'a str) -> Option<()>
        ensures { option_map (λ done. read_parts self.new) result ≡ with_plain (read_parts self.old) word.now }
    {
        self.plain.try_push(word).ok()
    }

    // Puts the value of this option; none where the option can't have it.
    fn put_value(&mut self, name: OptionName, value: &[u8]) -> Option<()>
        ensures { option_map (λ done. read_parts self.new) result ≡ with_value (read_parts self.old) (Some name) value.now }
    {
        match self.options.with(name, value) {
            None => None,
            Some(options) => {
                self.options = options;
                self.waiting = None;
                Some(())
            }
        }
    }

    // Puts the option by which a standby compares; none where it was given.
    fn put_compare(&mut self) -> Option<()>
        ensures { option_map (λ done. read_parts self.new) result ≡ with_compare (read_parts self.old) }
    {
        if self.options.compare {
            return None;
        }
        self.options.compare = true;
        Some(())
    }

    // Puts the option by which a roll cancels; none where it was given.
    fn put_cancel(&mut self) -> Option<()>
        ensures { option_map (λ done. read_parts self.new) result ≡ with_cancel (read_parts self.old) }
    {
        if self.options.cancel {
            return None;
        }
        self.options.cancel = true;
        Some(())
    }

    // Puts a word with dashes and no value; none where it is no option.
    fn put_name(&mut self, word: &[u8]) -> Option<()>
        ensures { option_map (λ done. read_parts self.new) result ≡ with_name (read_parts self.old) word.now }
    {
        if word == b"--compare".as_slice() {
            return self.put_compare();
        }
        if word == b"--cancel".as_slice() {
            return self.put_cancel();
        }
        self.waiting = Some(option_word(word)?);
        Some(())
    }

    // Puts a word with dashes; none where it is no option.
    fn put_dashed(&mut self, word: &[u8]) -> Option<()>
        ensures { option_map (λ done. read_parts self.new) result ≡ with_dashed (read_parts self.old) word.now (position (λ byte. byte == 61) word.now) }
    {
        match place_of_equals(word) {
            Some(at) => {
                let name = option_word(&word[..at])?;
                self.put_value(name, &word[at + 1..])
            }
            None => self.put_name(word),
        }
    }

    // Puts a word that is no value; none where it can't stand here.
    fn put_next(&mut self, word: &'a str) -> Option<()>
        ensures { option_map (λ done. read_parts self.new) result ≡ with_next (read_parts self.old) word.now }
    {
        if self.ended || !is_dashed(word.as_bytes()) {
            return self.put_plain(word);
        }
        if word == "--" {
            self.ended = true;
            return Some(());
        }
        self.put_dashed(word.as_bytes())
    }

    // Puts one more word; none where it can't stand here.
    fn put(&mut self, word: &'a str) -> Option<()>
        ensures { option_map (λ done. read_parts self.new) result ≡ with_word (read_parts self.old) (self.old.waiting) word.now }
    {
        match self.waiting {
            Some(name) => self.put_value(name, word.as_bytes()),
            None => self.put_next(word),
        }
    }
}

/// The words, parted; none where one can't stand at its place, or the last is a name that waits for its value.
pub fn parts_of(words: &[String]) -> Option<Parts<'_>>
    ensures { option_map read_parts result ≡ parts_of (map string_bytes words.now) }
{
    let mut parts = Parts::new();
    for word in words {
        parts.put(word.as_str())?;
    }
    if parts.waiting.is_some() {
        return None;
    }
    Some(parts)
}
