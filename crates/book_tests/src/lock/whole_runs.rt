//! A desk that answers all commands of a call.

ghost use Rattle.std.specs.Prelude.{◌≡◌, IfOk};
ghost use Rattle.command_types.specs.History.{end_of};

use crate::machine::empty_desk;
use command_types::{Ask, Desk, Entry, Reply};
use cycle_states::PlainDesk;
use std::alloc::{AllocError, Global};

/// A desk without a journal, which is asked each command of a call behind the one before it.
#[derive(Drop)]
pub struct WholeRuns {
    pub desk: PlainDesk,
}

/// Such a desk without a trade.
pub fn whole_runs(alloc: Global) -> Result<WholeRuns, AllocError>
    ensures { IfOk result (λ runs. end_of runs.desk ≡ 0) }
{
    Ok(WholeRuns {
        desk: empty_desk(alloc)?,
    })
}

impl Desk for WholeRuns {
    ghost use Rattle.std.specs.Prelude.{false};
    ghost use Rattle.cycle_states.specs.PlainDesk.{plain_figures};

    ghost history = { λ runs. runs.desk };

    ghost figures = { λ runs. plain_figures runs.desk };

    ghost stopped = { λ _. false };

    fn ask(&mut self, seat: u32, ask: Ask) -> Reply {
        self.desk.ask(seat, ask)
    }

    fn ask_all(&mut self, commands: &mut [Entry], replies: &mut Vec<Reply>) {
        replies.clear();
        for i in 0..commands.len() {
            let Entry { seat, ask } = commands[i].take();
            replies.push_reserved(self.desk.ask(seat, ask));
        }
        // A desk that tells its length says that its history is legal.
        let _length = self.desk.length();
    }

    fn length(&self) -> u64 {
        self.desk.length()
    }
}
