//! The conditions that several commands share, in the words of their definitions: each refuses where its condition holds. A
//! command asks them by `?`, and one of them by hand: the prover has no plan for a function that takes no refusal apart so.

ghost use Rattle.std.specs.Prelude.{◌≡◌, ◌<◌, [], ◌∷◌, not, length, slice_get, IsTrue};
ghost use Rattle.std.specs.Result.{result_err};
ghost use Rattle.command_types.specs.CycleRefusals.{unless_operator, unless_member, unless_members, unless_product, unless_cycle, if_broken, unless_version, unless_touched, is_crossed};
ghost use Rattle.command_types.specs.Cycles.{is_proposed};
ghost use Rattle.command_types.specs.Plans.{is_touched};
ghost use Rattle.command_types.specs.Machine.{first_of, if_frozen, is_party_of, maturity_refusal};
ghost use Rattle.cycle_states.specs.Party.{IsCaller};

use super::Machine;
use super::cycle::{is_broken, is_open};
use super::party::Caller;
use command_types::{Level, Refusal, TradeRow};
use units_core::{Day, MemberNo, Name, ProductNo};

/// Refuses where the condition holds.
pub(super) fn refuse_if(condition: bool, refusal: Refusal) -> Result<(), Refusal>
    ensures { result_err result ≡ first_of ((condition, refusal) ∷ []) }
{
    if condition { Err(refusal) } else { Ok(()) }
}

/// Whether a ceiling is given that is below the floor.
pub(super) fn is_crossed(floor: Level, ceiling: Option<Level>) -> bool
    ensures { result ≡ is_crossed floor ceiling }
{
    match ceiling {
        None => false,
        Some(most) => most.get() < floor.get(),
    }
}

impl Machine {
    /// Unless the party is the operator.
    pub(super) fn unless_operator(&self, caller: &Caller) -> Result<(), Refusal>
        requires { IsCaller self.now.state.roster caller.now }
        ensures { result_err result ≡ first_of (unless_operator self.now.state caller.now.name ∷ []) }
    {
        refuse_if(!self.is_operator(caller), Refusal::NotOperator)
    }

    /// Unless the name is a member's.
    pub(super) fn unless_member(&self, name: &Name) -> Result<(), Refusal>
        ensures { result_err result ≡ first_of (unless_member self.now.state name.now ∷ []) }
    {
        let unknown = self.roster.member_named(name).is_none();
        refuse_if(unknown, Refusal::UnknownMember)
    }

    /// Unless both names are members'.
    pub(super) fn unless_members(&self, a: &Name, b: &Name) -> Result<(), Refusal>
        ensures { result_err result ≡ first_of (unless_members self.now.state a.now b.now ∷ []) }
    {
        let unknown = self.roster.member_named(a).is_none()
            || self.roster.member_named(b).is_none();
        refuse_if(unknown, Refusal::UnknownMember)
    }

    /// Unless the name is a product's.
    pub(super) fn unless_product(&self, name: &Name) -> Result<(), Refusal>
        ensures { result_err result ≡ first_of (unless_product self.now.state name.now ∷ []) }
    {
        let unknown = self.roster.product_named(name).is_none();
        refuse_if(unknown, Refusal::UnknownProduct)
    }

    /// Unless the number is the cycle's.
    pub(super) fn unless_cycle(&self, cycle: u64) -> Result<(), Refusal>
        ensures { result_err result ≡ first_of (unless_cycle self.now.state cycle ∷ []) }
    {
        let number = self.cycle.number();
        refuse_if(cycle != number, Refusal::WrongCycle { cycle: number })
    }

    /// If the end of a frozen trade broke the cycle.
    pub(super) fn if_broken(&self) -> Result<(), Refusal>
        ensures { result_err result ≡ first_of (if_broken self.now.state ∷ []) }
    {
        let trade = self.cycle.broken_by().unwrap_or(0);
        let broken = is_broken(self.cycle.phase());
        refuse_if(broken, Refusal::CycleBroken { trade })
    }

    /// Unless the cycle's phase allows the command.
    pub(super) fn unless_phase(&self, allowed: bool) -> Result<(), Refusal>
        ensures { result_err result ≡ first_of ((not allowed, Refusal.WrongPhase self.now.state.cycle.phase) ∷ []) }
    {
        let phase = self.cycle.phase();
        refuse_if(!allowed, Refusal::WrongPhase { phase })
    }

    /// Unless the number is the version's.
    pub(super) fn unless_version(&self, version: u64) -> Result<(), Refusal>
        ensures { result_err result ≡ first_of (unless_version self.now.state version ∷ []) }
    {
        let current = self.cycle.version();
        let other = version != current;
        refuse_if(other, Refusal::WrongVersion { version: current })
    }

    // Whether the proposed plan touches the member at this place.
    fn touches(&self, member: MemberNo) -> bool
        requires proposed { IsTrue (is_proposed self.now.state.cycle.phase) }
        requires there { member < length self.now.state.roster.members }
        ensures { result ≡ is_touched self.now.state.trades self.now.state.cycle.plan member }
    {
        self.ballot.votes.needs(member)
    }

    /// Unless the proposed plan touches the party.
    pub(super) fn unless_touched(&self, caller: &Caller) -> Result<(), Refusal>
        requires proposed { IsTrue (is_proposed self.now.state.cycle.phase) }
        requires caller { IsCaller self.now.state.roster caller.now }
        ensures { result_err result ≡ first_of (unless_touched self.now.state caller.now.name ∷ []) }
    {
        match self.member(caller) {
            None => Err(Refusal::NotTouched),
            Some(member) => {
                let touched = self.touches(member);
                refuse_if(!touched, Refusal::NotTouched)
            }
        }
    }

    /// Unless the day is before the product's maturity.
    pub(super) fn unless_before_maturity(&self, product: ProductNo, day: Day) -> Result<(), Refusal>
        ensures { result_err result ≡ first_of (maturity_refusal (slice_get self.now.state.roster.products product) day ∷ []) }
    {
        match self.roster.products().get(product.index()) {
            None => Ok(()),
            Some(row) => {
                let maturity = row.maturity;
                refuse_if(!day.comes_before(maturity), Refusal::Matured { maturity })
            }
        }
    }

    /// Unless the party is one of the trade's two.
    pub(super) fn unless_party(&self, caller: &Caller, row: &TradeRow) -> Result<(), Refusal>
        requires { IsCaller self.now.state.roster caller.now }
        ensures { result_err result ≡ first_of ((not (is_party_of self.now.state caller.now.name row.now), Refusal.NotParty) ∷ []) }
    {
        refuse_if(!self.is_party_of(caller, row), Refusal::NotParty)
    }

    /// If the trade takes part in an open cycle.
    pub(super) fn if_frozen(&self, row: &TradeRow) -> Result<(), Refusal>
        ensures { result_err result ≡ first_of (if_frozen self.now.state row.now ∷ []) }
    {
        let cycle = self.cycle.number();
        let frozen = is_open(self.cycle.phase()) && row.frozen;
        refuse_if(frozen, Refusal::TradeFrozen { cycle })
    }
}
