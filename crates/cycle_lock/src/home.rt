//! What lies in the slot.
ghost use Rattle.std.specs.Prelude.{◌≡◌, ◌≤◌, vec_len, vec_capacity};
ghost use Rattle.command_types.specs.declared.desk.TheConstants.{MOST_TOGETHER};

use crate::pass::Pass;
use command_types::{Ask, Desk, Entry, MOST_TOGETHER, Reply};

mod asking;
mod filling;

/// Room for the calls of one turn.
#[derive(Drop)]
pub(crate) struct Batch {
    /// The passes that wait for their replies, the one whose reply is next last.
    pub(crate) passes: Vec<Pass>,
    /// The commands of the turn, in the order in which they are asked.
    pub(crate) commands: Vec<Entry>,
    /// Replies that are still to be noted, the next one last.
    pub(crate) replies: Vec<Reply>,
    /// The length of the history as far as it is noted.
    pub(crate) at: u64,
    /// The places whose replies lie there, and which are still to be rung, a bit each.
    pub(crate) served: u64,
    ghost few: { vec_len commands ≤ MOST_TOGETHER },
    ghost room: { MOST_TOGETHER ≤ vec_capacity commands },
    ghost pass_room: { MOST_TOGETHER ≤ vec_capacity passes },
    ghost reply_room: { MOST_TOGETHER ≤ vec_capacity replies },
}

/// The desk, and room for the calls of a turn.
#[derive(Drop)]
pub(crate) struct Home<T> {
    pub(crate) desk: T,
    pub(crate) batch: Batch,
}

impl<T> Home<T> {
    pub(crate) fn into_desk(self) -> T
        ensures { result ≡ self.desk }
    {
        let Home { desk, batch: _ } = self;
        desk
    }
}

impl<T: Desk> Desk for Home<T> {
    ghost history = { λ h. T.history h.desk };

    ghost figures = { λ h. T.figures h.desk };

    ghost stopped = { λ h. T.stopped h.desk };

    fn ask(&mut self, seat: u32, ask: Ask) -> Reply {
        self.desk.ask(seat, ask)
    }

    fn ask_all(&mut self, commands: &mut [Entry], replies: &mut Vec<Reply>) {
        self.desk.ask_all(commands, replies);
    }

    fn length(&self) -> u64 {
        self.desk.length()
    }
}
