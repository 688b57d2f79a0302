//! ROW and POT: the operator notes a row or a potential in its draft. The machine keeps no draft: the command tells the size that
//! it would have, and both ask the same of it.

ghost use Rattle.std.specs.Prelude.{[], ◌∷◌, ◌≡◌};
ghost use Rattle.std.specs.Result.{result_err};
ghost use Rattle.command_types.specs.CycleRefusals.{if_draft_full, pot_refusals, row_refusals};
ghost use Rattle.command_types.specs.Machine.{first_of};
ghost use Rattle.cycle_states.specs.Party.{IsCaller};

use crate::machine::Machine;
use crate::machine::conditions::refuse_if;
use crate::machine::party::Caller;
use crate::machine::terms::DraftRow;
use command_types::Refusal;
use units_core::{MOST_DRAFT, MOST_GROSS, Name};

// If a draft of this size is too large.
fn if_draft_full(size: u32) -> Result<(), Refusal>
    ensures { result_err result ≡ first_of (if_draft_full size ∷ []) }
{
    refuse_if(size > MOST_DRAFT, Refusal::DraftFull)
}

impl Machine {
    /// ROW: 14, 4, 5, 6, 9, 29.
    pub(super) fn check_row(&self, caller: &Caller, row: &DraftRow) -> Result<(), Refusal>
        requires { IsCaller self.now.state.roster caller.now }
        ensures { result_err result ≡ first_of (row_refusals self.now.state caller.now.name row.now.product row.now.seller row.now.buyer row.now.size row.now.sum) }
    {
        if let Err(refusal) = self.unless_operator(caller) {
            return Err(refusal);
        }
        self.unless_members(&row.seller, &row.buyer)?;
        self.unless_product(&row.product)?;
        refuse_if(row.seller.is(&row.buyer), Refusal::OwnTrade)?;
        refuse_if(row.sum > MOST_GROSS, Refusal::GrossOver)?;
        if_draft_full(row.size)
    }

    /// POT: 14, 4, 5, 29.
    pub(super) fn check_pot(
        &self,
        caller: &Caller,
        product: &Name,
        member: &Name,
        size: u32,
    ) -> Result<(), Refusal>
        requires { IsCaller self.now.state.roster caller.now }
        ensures { result_err result ≡ first_of (pot_refusals self.now.state caller.now.name product.now member.now size) }
    {
        if let Err(refusal) = self.unless_operator(caller) {
            return Err(refusal);
        }
        self.unless_member(member)?;
        self.unless_product(product)?;
        if_draft_full(size)
    }
}
