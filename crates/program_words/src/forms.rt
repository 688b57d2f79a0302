//! What the program may be asked to do: the forms, with the names of their files and the numbers of their options.

use crate::count::Count;
use command_types::Mode;
use units_core::{Day, Name};

/// A session's two files, and how many workers solve.
#[derive(Clone, Copy)]
pub struct ScriptWords<'a> {
    pub roster: &'a str,
    pub journal: &'a str,
    pub workers: Count,
}

/// A service's two files and its address; how many seats serve, how many connections each of them at most, how many workers
/// solve for a seat, and for how many seconds a connection may be silent, none where it may be without end.
#[derive(Clone, Copy)]
pub struct ServiceWords<'a> {
    pub roster: &'a str,
    pub journal: &'a str,
    pub address: &'a str,
    pub seats: Count,
    pub connections: u64,
    pub workers: Count,
    pub idle: Option<u64>,
}

/// The names of a market's two files, and the mode in which it is compressed.
#[derive(Clone, Copy)]
pub struct MarketFiles<'a> {
    pub roster: &'a str,
    pub trades: &'a str,
    pub mode: Mode,
}

/// A market, and the name of the file with the proposal that is checked.
#[derive(Clone, Copy)]
pub struct CheckWords<'a> {
    pub market: MarketFiles<'a>,
    pub proposal: &'a str,
}

/// The names of the two files of a replay.
#[derive(Clone, Copy)]
pub struct ReplayWords<'a> {
    pub roster: &'a str,
    pub journal: &'a str,
}

/// The names of a roll's three files, the day by which products have matured, if one is given, and whether an open cycle is
/// cancelled first.
#[derive(Clone, Copy)]
pub struct RollWords<'a> {
    pub roster: &'a str,
    pub journal: &'a str,
    pub new_roster: &'a str,
    pub matured: Option<Day>,
    pub cancel: bool,
}

/// The names of a standby's two files, the name and the key with which it greets its primary, and whether it first compares its
/// last entry.
#[derive(Clone, Copy)]
pub struct StandbyWords<'a> {
    pub roster: &'a str,
    pub journal: &'a str,
    pub name: Name,
    pub key: Name,
    pub compare: bool,
}

/// What the program is to do, with the names of its files and the numbers of its options.
#[derive(Clone, Copy)]
pub enum Form<'a> {
    /// One session over a roster and a journal.
    Script(ScriptWords<'a>),
    /// Seats at an address, over a roster and a journal.
    Serve(ServiceWords<'a>),
    /// Whether a proposal is right for a market.
    Check(CheckWords<'a>),
    /// A proposal for a market.
    Solve {
        market: MarketFiles<'a>,
        workers: Count,
    },
    /// The summary of the market of a number.
    Gen {
        number: u64,
        workers: Count,
    },
    /// What a journal stands for over a roster.
    Replay(ReplayWords<'a>),
    /// A journal with which the market of another goes on over a new roster.
    Roll(RollWords<'a>),
    /// A journal that follows that of a primary.
    Follow(StandbyWords<'a>),
}
