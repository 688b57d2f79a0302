//! The networks of trades: what each member sold to each other one, added up.
ghost use Rattle.std.specs.Prelude.{◌≡◌, length, IfOk};
ghost use Rattle.trade_file.specs.TradeFile.{AreFileTrades};
ghost use Rattle.trade_file.specs.Networks.{IsNetworkOf, AreNetworksOf};

use crate::file_trade::FileTrade;
use crate::piles::Piles;
use command_types::Roster;
use network_laws::Network;
use pair_table::PairTable;
use std::alloc::{AllocError, Global};

// The network of a product's trades, which are added up in this table.
fn network_of(
    table: &mut PairTable,
    trades: &[FileTrade],
    roster: &Roster,
    product: u16,
) -> Result<Network, AllocError>
    requires trades { AreFileTrades roster.now trades.now }
    requires members { table.old.members ≡ length roster.now.members }
    ensures network { IfOk result (IsNetworkOf roster.now trades.now product) }
    ensures members { table.new.members ≡ table.old.members }
{
    table.clear();
    for trade in trades {
        if trade.product.0 == product {
            table.add(trade.seller, trade.buyer, trade.amount.get());
        }
    }
    table.network()
}

/// For each product of the roster, in order, the network of its trades: each pair of members has the sum of the
/// trades from the one to the other. The only error is want of memory.
pub fn networks(
    alloc: Global,
    trades: &[FileTrade],
    roster: &Roster,
) -> Result<Vec<Network>, AllocError>
    requires { AreFileTrades roster.now trades.now }
    ensures { IfOk result (λ networks. AreNetworksOf roster.now trades.now networks.items) }
{
    let products = roster.products().len();
    let piles = Piles::of(alloc, trades, products)?;
    let mut table = PairTable::new(alloc, roster.members().len() as u16)?;
    let mut networks = Vec::new(alloc);
    for product in 0..products {
        let network = network_of(&mut table, piles.pile(product), roster, product as u16)?;
        networks.push(network)?;
    }
    Ok(networks)
}
