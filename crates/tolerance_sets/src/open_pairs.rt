//! The rows of a product where each pair of different members may come to any amount: one for each pair. Those of the
//! pairs without trades are alike, and are copied without a look at the pair.

ghost use Rattle.std.specs.Prelude.{◌≡◌, true, ◌≤◌, ◌++◌, length, IfOk, OnOk};
ghost use Rattle.command_types.specs.Books.{listed_below, listed_pairs};
ghost use Rattle.tolerance_sets.specs.Market.{IsMarket, market_limit};
ghost use Rattle.tolerance_sets.specs.OpenPairs.{IsUnbounded, IsUntouched, AreOpenRows};
ghost use Rattle.units_core.specs.declared.limits.TheConstants.{MOST_MEMBERS};

use crate::limits::{Market, add_pair, may_grow};
use crate::open_rows::OpenRows;
use crate::pair_cursor::{PairCursor, buyer_at};
use command_types::Mode;
use network_laws::{LimitRow, first_row, next_row};
use std::alloc::{AllocError, Global};

/// Whether each pair of different members may come to any amount.
pub(super) fn is_unbounded(market: &Market) -> bool
    ensures { result ≡ true → IsUnbounded market.now }
{
    market.mode == Mode::Free && market.settings.have_no_ceiling(market.product)
}

// Whether nothing keeps an amount from falling: no member set anything, and nothing is held.
fn is_untouched(market: &Market) -> bool
    ensures { result ≡ true → IsUntouched market.now }
{
    market.settings.is_empty() && market.held.is_empty()
}

// Adds the rows of what a seller may sell.
fn add_open_seller(
    rows: &mut Vec<LimitRow>,
    market: &Market,
    template: &OpenRows,
) -> Result<(), AllocError>
    requires market { IsMarket market.now }
    requires unbounded { IsUnbounded market.now }
    requires few { length market.now.members.now ≤ MOST_MEMBERS }
    requires template { AreOpenRows template.now }
    requires members { length template.now.rows.items ≡ length market.now.members.now }
    ensures { OnOk result (rows.new.items ≡ rows.old.items ++ listed_below (length market.now.members.now) (market_limit market.now template.now.seller)) }
{
    let seller = template.seller;
    let members = market.members.len() as u16;
    let mut from = 0;
    let mut row_at = first_row(market.network, seller, 0);
    while from < members {
        let buyer = buyer_at(market.network, row_at, seller, members);
        template.add_to(rows, from, buyer)?;
        if buyer == members {
            return Ok(());
        }
        let pair = PairCursor {
            seller,
            buyer,
            row_at,
            held_at: first_row(market.held, seller, buyer),
            growing: buyer,
        };
        let grows = may_grow(market.mode, market.members, seller, buyer);
        add_pair(rows, market, pair, grows)?;
        row_at = next_row(market.network, row_at, seller, buyer);
        from = buyer + 1;
    }
    Ok(())
}

/// The rows of all pairs, in their order.
pub(super) fn open_limits(alloc: Global, market: &Market) -> Result<Vec<LimitRow>, AllocError>
    requires market { IsMarket market.now }
    requires unbounded { IsUnbounded market.now }
    requires few { length market.now.members.now ≤ MOST_MEMBERS }
    ensures { IfOk result (λ rows. rows.items ≡ listed_pairs (length market.now.members.now) (market_limit market.now)) }
{
    let members = market.members.len();
    let mut rows = Vec::with_capacity(alloc, members * members)?;
    let mut template = OpenRows::of(alloc, members as u16)?;
    let untouched = is_untouched(market);
    for seller in 0..members as u16 {
        template.turn_to(seller);
        if untouched {
            template.add_to(&mut rows, 0, members as u16)?;
        } else {
            add_open_seller(&mut rows, market, &template)?;
        }
    }
    Ok(rows)
}
