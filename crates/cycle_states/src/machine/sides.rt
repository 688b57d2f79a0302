//! Where a party stands in a trade, and how the trade stands.

ghost use Rattle.std.specs.Prelude.{◌≡◌};
ghost use Rattle.command_types.specs.Trades.{is_alleged, is_live, is_ended, is_marked_by, hold_of};
ghost use Rattle.command_types.specs.Machine.{is_on_side, is_party_of, is_submitter, side_in, side_of};
ghost use Rattle.cycle_states.specs.Party.{IsCaller};

use super::Machine;
use super::party::Caller;
use command_types::{Side, TradeRow, TradeState};
use units_core::Name;

impl Machine {
    // Whether the caller stands on this side of the trade.
    fn is_on_side(&self, caller: &Caller, row: &TradeRow, side: Side) -> bool
        requires { IsCaller self.now.state.roster caller.now }
        ensures { result ≡ is_on_side self.now.state caller.now.name row.now side }
    {
        match side {
            Side::Out => self.is_at(caller, row.seller),
            Side::In => self.is_at(caller, row.buyer),
        }
    }

    /// Whether the caller is one of the trade's two.
    pub(super) fn is_party_of(&self, caller: &Caller, row: &TradeRow) -> bool
        requires { IsCaller self.now.state.roster caller.now }
        ensures { result ≡ is_party_of self.now.state caller.now.name row.now }
    {
        self.is_on_side(caller, row, Side::Out) || self.is_on_side(caller, row, Side::In)
    }

    /// Whether the caller submitted the trade.
    pub(super) fn is_submitter(&self, caller: &Caller, row: &TradeRow) -> bool
        requires { IsCaller self.now.state.roster caller.now }
        ensures { result ≡ is_submitter self.now.state caller.now.name row.now row.now.submitter }
    {
        match row.submitter {
            None => false,
            Some(side) => self.is_on_side(caller, row, side),
        }
    }

    /// The caller's side of the trade, where it is one of its two.
    pub(super) fn side_in(&self, caller: &Caller, row: &TradeRow) -> Side
        requires { IsCaller self.now.state.roster caller.now }
        ensures { result ≡ side_in self.now.state caller.now.name row.now }
    {
        if self.is_on_side(caller, row, Side::Out) {
            Side::Out
        } else {
            Side::In
        }
    }
}

/// The side that the party takes in a trade with this seller.
pub(super) fn side_of(by: &Name, seller: &Name) -> Side
    ensures { result ≡ side_of by.now seller.now }
{
    if by.is(seller) { Side::Out } else { Side::In }
}

/// Whether the trade is alleged.
pub(super) fn is_alleged(row: &TradeRow) -> bool
    ensures { result ≡ is_alleged row.now.state }
{
    row.state == TradeState::Alleged
}

/// Whether the trade is live.
pub(super) fn is_live(row: &TradeRow) -> bool
    ensures { result ≡ is_live row.now.state }
{
    row.state == TradeState::Live
}

/// Whether the trade has ended.
pub(super) fn is_ended(row: &TradeRow) -> bool
    ensures { result ≡ is_ended row.now.state }
{
    row.state == TradeState::Ended
}

/// Whether the mark is this side's.
pub(super) fn is_marked_by(mark: Option<Side>, side: Side) -> bool
    ensures { result ≡ is_marked_by side mark }
{
    match (side, mark) {
        (Side::Out, Some(Side::Out)) => true,
        (Side::In, Some(Side::In)) => true,
        _ => false,
    }
}

/// Whether this side holds the trade.
pub(super) fn is_held_by(row: &TradeRow, side: Side) -> bool
    ensures { result ≡ hold_of side row.now }
{
    match side {
        Side::Out => row.hold_out,
        Side::In => row.hold_in,
    }
}
