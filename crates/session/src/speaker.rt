//! What a session keeps between two lines: the party that has greeted, and its draft.

ghost use Rattle.std.specs.Prelude.{◌≡◌, ℕ, false, Option, None, Some, OnOk, OnErr, IfOk};
ghost use Rattle.command_types.specs.Session.{nobody, what_or_fault, speaker_after};
ghost use Rattle.session.specs.Asks.{line_read, is_vote};
ghost use Rattle.session.specs.KeptDraft.{HasRoom, MayNote, draft_of};

use crate::asks::what_of_read;
use crate::draft::Draft;
use command_text::BadLine;
use command_types::{Answer, Line, Roster, What};
use std::alloc::{AllocError, Global};
use units_core::Name;

/// The party that speaks, if one has greeted, and the draft.
#[derive(Drop)]
pub struct Speaker {
    party: Option<Name>,
    draft: Draft,
}

impl Speaker {
    ghost use Rattle.session.specs.KeptSpeaker.{speaker_of};

    /// Before the first greeting.
    pub fn nobody(alloc: Global) -> Speaker
        ensures { speaker_of result ≡ nobody }
    {
        Speaker {
            party: None,
            draft: Draft::new(alloc),
        }
    }

    /// The party, if one has greeted.
    pub fn party(&self) -> Option<Name>
        ensures { result ≡ (speaker_of self.now).party }
    {
        self.party
    }

    /// The command of what was read of a line. It takes the memory that the command needs, and that the draft needs to
    /// note it. The only error is want of memory; a vote takes none.
    pub fn prepare(
        &mut self,
        alloc: Global,
        roster: &Roster,
        read: &Result<Line, BadLine>,
    ) -> Result<What, AllocError>
        ensures same { speaker_of self.new ≡ speaker_of self.old }
        ensures room { OnOk result (HasRoom self.new.draft read.now) }
        ensures what { IfOk result (λ what. what ≡ what_or_fault roster.now (speaker_of self.old).draft (line_read read.now)) }
        ensures other { OnErr result (is_vote (line_read read.now) ≡ false) }
    {
        self.draft.prepare(read)?;
        what_of_read(alloc, roster, &self.draft, read)
    }

    /// Takes an answer in: an accepted greeting sets the party and clears the draft, what was noted goes into the draft,
    /// and an accepted POST clears it.
    pub fn hear(&mut self, read: &Result<Line, BadLine>, answer: &Answer)
        requires room { HasRoom self.old.draft read.now }
        requires fits { (size : ℕ) → answer.now ≡ Answer.Noted size → MayNote (speaker_of self.old).draft (line_read read.now) }
        ensures { speaker_of self.new ≡ speaker_after (speaker_of self.old) (line_read read.now) answer.now }
    {
        match answer {
            Answer::Hello { name } => {
                self.party = Some(*name);
                self.draft.clear();
            }
            Answer::Noted { .. } => self.draft.note(read),
            Answer::Proposed { .. } | Answer::Nothing { .. }
                if matches!(read, Ok(Line::Post { .. })) => { self.draft.clear() }
            _ => {}
        }
    }
}
