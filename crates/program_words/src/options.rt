//! The options of a form: their words, their numbers, and which of them are given.

ghost use Rattle.std.specs.Prelude.{◌≡◌, ◌≤◌, IfSome, option_map};
ghost use Rattle.units_core.specs.Day.{day_of};
ghost use Rattle.program_words.specs.Parting.{count_of, once, with_option, option_word, read_options};
ghost use Rattle.program_words.specs.Words.{workers_of, seats_of, connections_of, has_none, has_no_service, has_no_other, has_roll_alone, has_compare_alone, has_workers_alone};

use crate::count::Count;
use units_core::{Day, MOST_CONNECTIONS, MOST_SEATS, MOST_WORKERS, read_number};

/// An option that a form may have.
#[derive(Clone, Copy)]
pub enum OptionName {
    Workers,
    Seats,
    Connections,
    Idle,
    Matured,
}

/// The options that are given.
#[derive(Clone, Copy)]
pub struct Options {
    pub workers: Option<Count>,
    pub seats: Option<Count>,
    pub connections: Option<u64>,
    pub idle: Option<u64>,
    pub matured: Option<Day>,
    pub compare: bool,
    pub cancel: bool,
}

/// The most seconds that a connection of a service may be silent: a day.
pub const MOST_IDLE: u64 = 86_400;

/// The number from 1 to `most` that a text writes.
pub fn count_of(most: u64, text: &[u8]) -> Option<u64>
    ensures value { result ≡ count_of most text.now }
    ensures within { IfSome result (λ n. (1 ≤ n) × (n ≤ most)) }
{
    match read_number(text, most) {
        Ok(0) | Err(_) => None,
        Ok(number) => Some(number),
    }
}

// The number of workers or of seats, of so many at the most, that a text writes, for an option that had the one before.
fn count_once(before: Option<Count>, most: u32, text: &[u8]) -> Option<Count>
    requires { most ≤ 64 }
    ensures { option_map (λ count. count.value) result ≡ once (option_map (λ count. count.value) before) (count_of most text.now) }
{
    if before.is_some() {
        return None;
    }
    let value = count_of(u64::from(most), text)?;
    Some(Count {
        value: value as u32,
    })
}

// The number of so much at the most that a text writes, for an option that had the one before.
fn number_once(before: Option<u64>, most: u64, text: &[u8]) -> Option<u64>
    ensures { result ≡ once before (count_of most text.now) }
{
    match before {
        Some(_) => None,
        None => count_of(most, text),
    }
}

// The day that a text names, for an option that had the one before.
fn day_once(before: Option<Day>, text: &[u8]) -> Option<Day>
    ensures { result ≡ once before (day_of text.now) }
{
    match before {
        Some(_) => None,
        None => Day::read(text),
    }
}

/// The option whose name with its dashes a word is.
pub fn option_word(word: &[u8]) -> Option<OptionName>
    ensures { result ≡ option_word word.now }
{
    if word == b"--workers".as_slice() {
        Some(OptionName::Workers)
    } else if word == b"--seats".as_slice() {
        Some(OptionName::Seats)
    } else if word == b"--connections".as_slice() {
        Some(OptionName::Connections)
    } else if word == b"--idle".as_slice() {
        Some(OptionName::Idle)
    } else if word == b"--matured".as_slice() {
        Some(OptionName::Matured)
    } else {
        None
    }
}

impl Options {
    /// The options with this one too.
    pub fn with(self, name: OptionName, value: &[u8]) -> Option<Options>
        ensures { option_map read_options result ≡ with_option (read_options self) name value.now }
    {
        match name {
            OptionName::Workers => {
                let workers = Some(count_once(self.workers, MOST_WORKERS, value)?);
                Some(Options { workers, ..self })
            }
            OptionName::Seats => {
                let seats = Some(count_once(self.seats, MOST_SEATS, value)?);
                Some(Options { seats, ..self })
            }
            OptionName::Connections => {
                let connections = Some(number_once(self.connections, MOST_CONNECTIONS, value)?);
                Some(Options {
                    connections,
                    ..self
                })
            }
            OptionName::Idle => {
                let idle = Some(number_once(self.idle, MOST_IDLE, value)?);
                Some(Options { idle, ..self })
            }
            OptionName::Matured => {
                let matured = Some(day_once(self.matured, value)?);
                Some(Options { matured, ..self })
            }
        }
    }

    /// How many workers solve.
    pub fn workers(&self) -> Count
        ensures { result.value ≡ workers_of (read_options self.now) }
    {
        self.workers.unwrap_or(Count::usual())
    }

    /// How many seats serve.
    pub fn seats(&self) -> Count
        ensures { result.value ≡ seats_of (read_options self.now) }
    {
        self.seats.unwrap_or(Count::usual())
    }

    /// How many connections a seat serves at the most.
    pub fn connections(&self) -> u64
        ensures { result ≡ connections_of (read_options self.now) }
    {
        self.connections.unwrap_or(MOST_CONNECTIONS)
    }

    // Whether no option of a service alone is given.
    fn has_no_service(&self) -> bool
        ensures { result ≡ has_no_service (read_options self.now) }
    {
        self.seats.is_none() && self.connections.is_none() && self.idle.is_none()
    }

    /// Whether no option of a roll or of a standby is given.
    pub fn has_no_other(&self) -> bool
        ensures { result ≡ has_no_other (read_options self.now) }
    {
        self.matured.is_none() && !self.compare && !self.cancel
    }

    /// Whether no option is given, but perhaps the workers.
    pub fn has_workers_alone(&self) -> bool
        ensures { result ≡ has_workers_alone (read_options self.now) }
    {
        self.has_no_other() && self.has_no_service()
    }

    /// Whether no option is given, but perhaps those of a roll.
    pub fn has_roll_alone(&self) -> bool
        ensures { result ≡ has_roll_alone (read_options self.now) }
    {
        self.workers.is_none() && !self.compare && self.has_no_service()
    }

    /// Whether no option is given, but perhaps that of a standby.
    pub fn has_compare_alone(&self) -> bool
        ensures { result ≡ has_compare_alone (read_options self.now) }
    {
        self.workers.is_none() && self.matured.is_none() && !self.cancel && self.has_no_service()
    }

    /// Whether no option is given.
    pub fn has_none(&self) -> bool
        ensures { result ≡ has_none (read_options self.now) }
    {
        self.workers.is_none() && self.has_workers_alone()
    }
}
