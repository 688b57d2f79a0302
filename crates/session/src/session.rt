//! A session as a value.
//!
//! ```text
//!     source ── piece ──> line ── at its line feed ──> asker ── reply ──> writer ── before more is read ──> sink
//!                                                     speaker
//! ```

ghost use Rattle.std.specs.Prelude.{◌≡◌};
ghost use Rattle.session.specs.Serving.{of_pass, roster_of};

use crate::asker::Asker;
use crate::reply_writer::ReplyWriter;
use crate::run::Run;
use crate::speaker::Speaker;
use command_types::{Desk, Roster};
use network_laws::Solver;
use outside::Gate;
use std::alloc::Global;
use std::sync::Wait;
use std::thread::Threads;

/// A session: what asks the desk of a roster, who speaks, and what writes the replies.
#[derive(Drop)]
pub struct Session<'a, T: Desk, R: Threads + Wait + Sync, V: Solver, G: Gate> {
    pub(crate) alloc: Global,
    pub(crate) asker: Asker<'a, T, R, V, G>,
    pub(crate) roster: &'a Roster,
    pub(crate) speaker: Speaker,
    pub(crate) writer: ReplyWriter,
    pub(crate) run: Run,
    ghost own: { roster.now ≡ roster_of (of_pass asker.pass) },
}
