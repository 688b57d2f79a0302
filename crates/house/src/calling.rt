//! Calls of a house.
ghost use Rattle.std.specs.Prelude.{◌≡◌, ◌<◌, ◌^◌};
ghost use Rattle.command_types.specs.declared.answer.Answer.TheVariants.{No};
ghost use Rattle.command_types.specs.History.{end_of};
ghost use Rattle.house.specs.Calling.{Calls, IsFilled};

use crate::House;
use crate::chronicle::Chronicle;
use crate::storing::{Unstored, store};
use command_types::{Answer, Ask, Entry, Refusal, Reply};
use cycle_states::{Decision, OpenAsk, filled, open_ask};
use outside::Disk;
use record_codec::length;

// The reply that refuses a command.
pub(crate) fn refused(at: u64, refusal: Refusal) -> Reply
    ensures { result ≡ record { at = at; answer = No refusal } }
{
    Reply {
        at,
        answer: Answer::No(refusal),
    }
}

// The machine's answer to a command that asks this of the history, with what the history tells in it, or that there is no memory
// for an entry.
fn told(past: &Chronicle, asked: OpenAsk, answer: Answer) -> Answer
    ensures { IsFilled past.now.history asked answer result }
{
    match filled(answer, asked, past.places()) {
        Some(answer) => answer,
        None => {
            let OpenAsk::Next { position } = asked else {
                unreachable!()
            };
            past.entry_behind(position)
        }
    }
}

impl<D: Disk> House<D> {
    /// Answers a command of this seat as the machine does. A change that the machine accepts is refused where the journal has
    /// no room for it; where a disk fault stopped the house before; where there is no memory, which never comes of an ACCEPT; and
    /// where the disk fails, which stops the house. Else it is made once its record is on the disk.
    pub fn call(&mut self, seat: u32, ask: Ask) -> Reply
        ensures calls { Calls self.old self.new seat ask result }
        ensures short { end_of self.new.history < 2 ^ 63 }
    {
        let at = self.past.length();
        let asked = open_ask(&ask.what);
        let ready = match self.machine.decide(Entry { seat, ask }) {
            Err(_) => return refused(at, Refusal::Memory),
            Ok(Decision::Told(answer)) => {
                let answer = told(&self.past, asked, answer);
                return Reply { at, answer };
            }
            Ok(Decision::Ready(ready)) => ready,
        };
        if !self.journal.fits(length(ready.entry())) {
            let size = self.journal.bytes();
            return refused(at, Refusal::JournalFull { size });
        }
        if self.batch.any() {
            return refused(at, Refusal::Stopped { at });
        }
        match store(
            &mut self.machine,
            &mut self.past,
            &mut self.journal,
            &mut self.short,
            ready,
        ) {
            Ok(answer) => Reply { at: at + 1, answer },
            Err(Unstored::Memory) => refused(at, Refusal::Memory),
            Err(Unstored::Failed(entry)) => {
                self.batch.keep(entry);
                refused(at, Refusal::DiskFault)
            }
        }
    }
}
