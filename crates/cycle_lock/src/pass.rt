//! What a thread calls with.
ghost use Rattle.std.specs.Prelude.{◌≡◌, ◌+◌, ◌≤◌, length, false, [], ◌∷◌};
ghost use Rattle.command_types.specs.History.{end_of};
ghost use Rattle.command_types.specs.Roster.{IsRoster};
ghost use Rattle.cycle_lock.specs.Accounts.{times};
ghost use Rattle.cycle_lock.specs.Views.{resting, account_of};

use crate::rule::View;
use atomic_table::Badge;

/// A seat's number, with the history that it has seen. It belongs to one lock, and stands for the entries of its number.
#[derive(Drop)]
pub struct Pass {
    pub(crate) badge: Badge<View>,
    pub(crate) number: u32,
    pub(crate) at: u64,
    pub ghost rests: { badge.views ≡ resting (account_of badge.views) ∷ [] },
    pub ghost live: { (account_of badge.views).spent ≡ false },
    pub ghost numbered: { (account_of badge.views).number ≡ number },
    pub ghost mine: { 1 ≤ times number (account_of badge.views).stands },
    pub ghost place: { at ≡ (account_of badge.views).figures.base.position + length (account_of badge.views).seen },
    pub ghost opened: { (account_of badge.views).figures.opening ≤ at },
    pub ghost roster: { IsRoster (account_of badge.views).figures.base.state.roster },
}

impl Pass {
    ghost use Rattle.cycle_lock.specs.Passes.{seat_of, seen};

    /// The number under which its own commands are recorded.
    pub fn seat(&self) -> u32
        ensures { result ≡ seat_of self.now }
    {
        self.number
    }

    /// The length of the history that it has seen. The roster of that history keeps its limits.
    pub fn position(&self) -> u64
        ensures position { result ≡ end_of (seen self.now) }
        ensures roster { IsRoster (seen self.now).base.state.roster }
    {
        self.at
    }
}
