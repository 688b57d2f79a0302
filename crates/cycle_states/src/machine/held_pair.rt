//! Whether so much of a pair is held, found from the pair's trades alone.

ghost use Rattle.std.specs.Prelude.{◌≡◌, ◌-◌, ◌&&◌, IfOk, nat_le};
ghost use Rattle.network_laws.specs.Networks.{at};
ghost use Rattle.command_types.specs.Books.{is_held};
ghost use Rattle.command_types.specs.Trades.{total_where};
ghost use Rattle.cycle_states.specs.Machine.{FrozenAreLive};
ghost use Rattle.cycle_states.specs.MemberProofs.{part_in};

use super::part::Part;
use command_types::TradeRow;
use std::alloc::AllocError;
use units_core::MemberNo;

// Whether the trade is frozen, and a party of it keeps it out of compression.
fn is_frozen_and_held(trade: &TradeRow) -> bool
    ensures { result ≡ trade.now.frozen && is_held trade.now }
{
    trade.frozen && (trade.hold_out || trade.hold_in)
}

// What of an amount is above what is held of these trades.
fn above_held(amount: u64, trades: &[TradeRow]) -> u64
    ensures { result ≡ amount - total_where (λ row. row.frozen && is_held row) trades.now }
{
    let mut left = amount;
    for trade in trades {
        if is_frozen_and_held(trade) {
            left = left.saturating_sub(trade.amount.get());
        }
    }
    left
}

/// Whether so much of a pair is held. The only error is want of memory.
pub(super) fn is_held_of_pair(
    part: &Part,
    seller: u16,
    buyer: u16,
    amount: u64,
) -> Result<bool, AllocError>
    requires live { FrozenAreLive part.now.book.now.rows }
    ensures { IfOk result (λ held. held ≡ nat_le amount (at (part_in part.now).held seller buyer)) }
{
    let members = part.members.len();
    if seller as usize >= members {
        return Ok(amount == 0);
    }
    if buyer as usize >= members {
        return Ok(amount == 0);
    }
    let (out, into) = (MemberNo(seller), MemberNo(buyer));
    let trades = part.book.pair_rows(part.product, out, into)?;
    Ok(above_held(amount, &trades) == 0)
}
