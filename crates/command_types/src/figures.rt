//! What a desk was when it was made, and the state that its history begins with. Contracts alone speak of these
//! types: no value of them is made.

use crate::ask::Entry;
use crate::cycle::{Mode, Phase};
use crate::plan::PlanRow;
use crate::roster::Roster;
use crate::tolerance::ToleranceRow;
use crate::trade::TradeRow;
use network_laws::{Problem, Solution};
use std::collections::LinkedList;
use units_core::{Day, MemberNo};

/// The compression cycle: two numbers that stay, and what its phase needs. Where no cycle is open there is nothing
/// but the two numbers.
pub struct Cycle {
    /// How many cycles were opened so far.
    pub number: u64,
    /// How many versions were begun since this one was opened.
    pub version: u64,
    pub phase: Phase,
    /// The day of its freeze.
    pub day: Option<Day>,
    /// The mode in which its last version began.
    pub mode: Option<Mode>,
    /// All that members had set when that version began.
    pub settings: LinkedList<ToleranceRow>,
    /// The limits and the frozen network of each product, as the version began with them.
    pub begun: LinkedList<Problem>,
    /// The posted solution of each product.
    pub solutions: LinkedList<Solution>,
    /// What the posted solutions change.
    pub plan: LinkedList<PlanRow>,
    /// The members that have accepted the plan.
    pub votes: LinkedList<MemberNo>,
    /// The frozen trade whose end broke the cycle.
    pub broken_by: Option<u64>,
}

/// What the machine knows.
pub struct State {
    pub roster: Roster,
    pub trades: LinkedList<TradeRow>,
    pub tolerances: LinkedList<ToleranceRow>,
    pub cycle: Cycle,
}

/// Where a history begins: a position, and the state there.
pub struct Start {
    pub position: u64,
    pub state: State,
}

/// What a desk's journal was when the desk was made. Where the disk tells nothing, both moments are 0.
pub struct JournalFigures {
    /// Whether the disk tells its content and its moments.
    pub tells: bool,
    /// Its bytes.
    pub size: u64,
    /// How many calls of its disk had failed.
    pub faults: u64,
    /// The number of the disk's moment.
    pub moment: u64,
    /// The number of the disk's moment when the desk took the disk.
    pub first_moment: u64,
    /// Where the history began for which the disk's content stood then.
    pub first_base: Start,
    /// The changes of that history.
    pub first: LinkedList<Entry>,
}

/// What a desk was when it was made. No call changes it.
pub struct Figures {
    pub base: Start,
    /// How long the history was.
    pub opening: u64,
    /// The journal's figures; a desk without a journal has none.
    pub journal: Option<JournalFigures>,
    /// Whether a vote takes memory, so that want of it may be its answer.
    pub votes_take_memory: bool,
}
