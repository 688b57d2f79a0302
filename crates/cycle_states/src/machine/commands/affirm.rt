//! AFFIRM: the party that did not submit an alleged trade makes it live.

ghost use Rattle.std.specs.Prelude.{◌≡◌};
ghost use Rattle.std.specs.Result.{result_err};
ghost use Rattle.command_types.specs.Machine.{affirm_refusals, first_of};
ghost use Rattle.command_types.specs.Trades.{trade_numbered};
ghost use Rattle.cycle_states.specs.Party.{IsCaller};

use crate::machine::Machine;
use crate::machine::conditions::refuse_if;
use crate::machine::party::Caller;
use crate::machine::sides::is_alleged;
use command_types::Refusal;

impl Machine {
    /// AFFIRM: 11, 7, 12.
    pub(super) fn check_affirm(&self, caller: &Caller, trade: u64) -> Result<(), Refusal>
        requires { IsCaller self.now.state.roster caller.now }
        ensures { result_err result ≡ first_of (affirm_refusals self.now.state caller.now.name (trade_numbered self.now.state.trades trade)) }
    {
        let Some(row) = self.book.get(trade) else {
            return Err(Refusal::UnknownTrade);
        };
        let barred = !self.is_party_of(caller, row) || self.is_submitter(caller, row);
        if let Err(refusal) = refuse_if(barred, Refusal::NotParty) {
            return Err(refusal);
        }
        refuse_if(
            !is_alleged(row),
            Refusal::WrongTradeState { state: row.state },
        )
    }
}
