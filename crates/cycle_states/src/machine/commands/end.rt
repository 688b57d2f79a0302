//! END: an alleged trade ends at once; of a live one it sets the party's mark, and ends it where the other has set its own.

ghost use Rattle.std.specs.Prelude.{◌≡◌, Some};
ghost use Rattle.std.specs.Result.{result_err};
ghost use Rattle.command_types.specs.Machine.{end_answer, end_refusals, first_of};
ghost use Rattle.command_types.specs.Trades.{trade_numbered};
ghost use Rattle.cycle_states.specs.Party.{IsCaller};

use crate::machine::Machine;
use crate::machine::conditions::refuse_if;
use crate::machine::party::Caller;
use crate::machine::sides::{is_ended, is_marked_by};
use command_types::{Answer, Refusal, TradeRow, TradeState};

impl Machine {
    // END of this trade: 7, 12.
    fn check_end_of(&self, caller: &Caller, row: &TradeRow) -> Result<(), Refusal>
        requires { IsCaller self.now.state.roster caller.now }
        ensures { result_err result ≡ first_of (end_refusals self.now.state caller.now.name (Some row.now)) }
    {
        let side = self.side_in(caller, row);
        if let Err(refusal) = self.unless_party(caller, row) {
            return Err(refusal);
        }
        let over = is_ended(row) || is_marked_by(row.mark, side);
        refuse_if(over, Refusal::WrongTradeState { state: row.state })
    }

    /// END: 11, 7, 12.
    pub(super) fn check_end(&self, caller: &Caller, trade: u64) -> Result<(), Refusal>
        requires { IsCaller self.now.state.roster caller.now }
        ensures { result_err result ≡ first_of (end_refusals self.now.state caller.now.name (trade_numbered self.now.state.trades trade)) }
    {
        match self.book.get(trade) {
            None => Err(Refusal::UnknownTrade),
            Some(row) => self.check_end_of(caller, row),
        }
    }

    /// What an END of the trade with this number is answered.
    pub(super) fn end_answer(&self, trade: u64) -> Answer
        ensures { result ≡ end_answer trade (trade_numbered self.now.state.trades trade) }
    {
        match self.book.get(trade) {
            None => Answer::No(Refusal::UnknownTrade),
            Some(row) => {
                if row.state == TradeState::Alleged || row.mark.is_some() {
                    Answer::Ended { trade }
                } else {
                    Answer::Marked { trade }
                }
            }
        }
    }
}
