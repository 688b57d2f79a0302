//! What each member sold and bought, in one pass over the rows.

ghost use Rattle.std.specs.Prelude.{◌≡◌, ◌≤◌, ◌<◌, ◌^◌, ◌-ℤ◌, pos, [], length, slice_index};
ghost use Rattle.network_laws.specs.Networks.{gross, net, sum_below, AreRows, IsNetwork, total};
ghost use Rattle.net_positions.specs.Tables.{AreTotals, positive_at};
ghost use Rattle.units_core.specs.declared.limits.TheConstants.{MOST_GROSS, MOST_MEMBERS};

use network_laws::{Network, Row};

/// The most members of a network.
const PLACES: usize = 256;

/// What each member sold and bought, at its place, and the gross, in the contract's currency unit. Past
/// the members there is 0.
#[derive(Drop)]
pub struct Positions {
    pub sold: [u64; 256],
    pub bought: [u64; 256],
    pub gross: u64,
}

/// The positions of all members of a network, in one pass over its rows.
pub fn positions_of(network: &Network) -> Positions
    ensures totals { AreTotals network.now.rows result.sold result.bought }
    ensures gross { result.gross ≡ gross network.now }
    ensures network { IsNetwork network.now }
{
    let mut sold = [0; PLACES];
    let mut bought = [0; PLACES];
    let gross = add_rows(&mut sold, &mut bought, network.rows(), network.members());
    Positions {
        sold,
        bought,
        gross,
    }
}

/// Adds each row to its seller's and its buyer's place, and answers the sum of the amounts.
fn add_rows(sold: &mut [u64], bought: &mut [u64], rows: &[Row], members: u16) -> u64
    requires empty { AreTotals [] sold.old bought.old }
    requires few { members ≤ MOST_MEMBERS }
    requires rows { AreRows members rows.now }
    ensures totals { AreTotals rows.now sold.new bought.new }
    ensures gross { result ≡ total rows.now }
{
    let mut gross = 0;
    for row in rows {
        sold[row.seller as usize] += row.amount;
        bought[row.buyer as usize] += row.amount;
        gross += row.amount;
    }
    gross
}

/// The sum of the positive net positions of the members below `members`.
pub fn positive_sum(sold: &[u64], bought: &[u64], members: u16) -> u64
    requires sold { members ≤ length sold.now }
    requires bought { members ≤ length bought.now }
    requires fits { sum_below members (positive_at sold.now bought.now) ≤ MOST_GROSS }
    ensures { result ≡ sum_below members (positive_at sold.now bought.now) }
{
    let mut sum = 0;
    for member in 0..members {
        sum += sold[member as usize].saturating_sub(bought[member as usize]);
    }
    sum
}
