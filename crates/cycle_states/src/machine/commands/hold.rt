//! HOLD and FREE: a party keeps a live trade out of compression, and lets it in again. They ask the same of the trade, but
//! for whether this party holds it.

ghost use Rattle.std.specs.Prelude.{◌≡◌, Some};
ghost use Rattle.std.specs.Result.{result_err};
ghost use Rattle.command_types.specs.Machine.{first_of, free_refusals, hold_refusals};
ghost use Rattle.command_types.specs.Trades.{trade_numbered};
ghost use Rattle.cycle_states.specs.Party.{IsCaller};

use crate::machine::Machine;
use crate::machine::conditions::refuse_if;
use crate::machine::party::Caller;
use crate::machine::sides::{is_held_by, is_live};
use command_types::{Refusal, TradeRow};

impl Machine {
    // HOLD of this trade: 7, 12, 13.
    fn check_hold_of(&self, caller: &Caller, row: &TradeRow) -> Result<(), Refusal>
        requires { IsCaller self.now.state.roster caller.now }
        ensures { result_err result ≡ first_of (hold_refusals self.now.state caller.now.name (Some row.now)) }
    {
        let side = self.side_in(caller, row);
        if let Err(refusal) = self.unless_party(caller, row) {
            return Err(refusal);
        }
        let held = !is_live(row) || is_held_by(row, side);
        refuse_if(held, Refusal::WrongTradeState { state: row.state })?;
        self.if_frozen(row)
    }

    /// HOLD: 11, 7, 12, 13.
    pub(super) fn check_hold(&self, caller: &Caller, trade: u64) -> Result<(), Refusal>
        requires { IsCaller self.now.state.roster caller.now }
        ensures { result_err result ≡ first_of (hold_refusals self.now.state caller.now.name (trade_numbered self.now.state.trades trade)) }
    {
        match self.book.get(trade) {
            None => Err(Refusal::UnknownTrade),
            Some(row) => self.check_hold_of(caller, row),
        }
    }

    // FREE of this trade: 7, 12, 13.
    fn check_free_of(&self, caller: &Caller, row: &TradeRow) -> Result<(), Refusal>
        requires { IsCaller self.now.state.roster caller.now }
        ensures { result_err result ≡ first_of (free_refusals self.now.state caller.now.name (Some row.now)) }
    {
        let side = self.side_in(caller, row);
        if let Err(refusal) = self.unless_party(caller, row) {
            return Err(refusal);
        }
        let free = !is_live(row) || !is_held_by(row, side);
        refuse_if(free, Refusal::WrongTradeState { state: row.state })?;
        self.if_frozen(row)
    }

    /// FREE: 11, 7, 12, 13.
    pub(super) fn check_free(&self, caller: &Caller, trade: u64) -> Result<(), Refusal>
        requires { IsCaller self.now.state.roster caller.now }
        ensures { result_err result ≡ first_of (free_refusals self.now.state caller.now.name (trade_numbered self.now.state.trades trade)) }
    {
        match self.book.get(trade) {
            None => Err(Refusal::UnknownTrade),
            Some(row) => self.check_free_of(caller, row),
        }
    }
}
