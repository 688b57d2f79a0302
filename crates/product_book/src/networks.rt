//! The network of a product's trades: what each member owes each other one, added up.
ghost use Rattle.std.specs.Prelude.{◌≡◌, ◌≤◌, All, IfOk, filter};
ghost use Rattle.command_types.specs.Trades.{gross_of};
ghost use Rattle.product_book.specs.Book.{gross_limit};
ghost use Rattle.linked_rows.specs.Rows.{list_of};
ghost use Rattle.product_book.specs.Links.{is_open_at};
ghost use Rattle.product_book.specs.OpenLists.{numbers_in};
ghost use Rattle.product_book.specs.Walks.{rows_at, EachThere};
ghost use Rattle.product_book.specs.Networks.{is_among, network_of, AllCount, HasParties};
ghost use Rattle.units_core.specs.declared.limits.TheConstants.{MOST_MEMBERS};

use crate::open_lists::OpenLists;
use crate::row::row_at;
use command_types::{TradeRow, TradeState};
use network_laws::Network;
use pair_table::PairTable;
use std::alloc::{AllocError, Global};
use units_core::ProductNo;

/// Which of a product's trades make a network.
#[derive(Clone, Copy, Debug, PartialEq, Eq)]
pub enum Which {
    /// The live ones.
    Live,
    /// The frozen ones, which take part in the open cycle.
    Frozen,
    /// The frozen ones that a party holds.
    FrozenHeld,
}

fn is_among(which: Which, trade: &TradeRow) -> bool
    ensures { result ≡ is_among which trade.now }
{
    match which {
        Which::Live => trade.state == TradeState::Live,
        Which::Frozen => trade.frozen,
        Which::FrozenHeld => trade.frozen && (trade.hold_out || trade.hold_in),
    }
}

/// The network of a product's trades. It goes over the product's open trades alone.
pub(super) fn network_of(
    alloc: Global,
    trades: &[TradeRow],
    lists: &OpenLists,
    members: u16,
    product: ProductNo,
    which: Which,
) -> Result<Network, AllocError>
    requires few { members ≤ MOST_MEMBERS }
    requires parties { All (HasParties members) trades.now }
    requires there { EachThere trades.now (numbers_in (list_of lists.now.lists product)) }
    requires open { rows_at trades.now (numbers_in (list_of lists.now.lists product)) ≡ filter (is_open_at (λ row. row.product) product) trades.now }
    requires count { AllCount which trades.now }
    requires bound { gross_of product trades.now ≤ gross_limit }
    ensures { IfOk result (λ network. network ≡ network_of which members product trades.now) }
{
    let mut table = PairTable::new(alloc, members)?;
    let mut at = lists.first(product.index() as u32);
    while let Some(node) = at {
        let trade = row_at(trades, lists.number_at(node));
        if is_among(which, &trade) {
            table.add(trade.seller, trade.buyer, trade.amount.get());
        }
        at = lists.next(node);
    }
    table.network()
}
