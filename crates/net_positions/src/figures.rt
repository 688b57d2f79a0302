//! The figures that one pass over the rows finds.

ghost use Rattle.std.specs.Prelude.{◌≡◌, ◌<◌, ◌≤◌, ◌^◌};
ghost use Rattle.network_laws.specs.Networks.{gross, net, floor_m as floor_of, excess as excess_of, sum_below};

use crate::positions::{positions_of, positive_sum};
use network_laws::Network;

/// The net position of a member: what it sold less what it bought.
pub fn net(network: &Network, member: u16) -> i64
    requires { member < network.now.members }
    ensures { result ≡ net network.now member }
{
    let positions = positions_of(network);
    let place = member as usize;
    positions.sold[place] as i64 - positions.bought[place] as i64
}

/// The gross notional: the sum of all amounts.
pub fn gross(network: &Network) -> u64
    ensures { result ≡ gross network.now }
{
    let mut sum = 0;
    for row in network.rows() {
        sum += row.amount;
    }
    sum
}

/// The sum of the positive net positions, which is half the sum of the absolute ones. No network with
/// these net positions has less gross.
pub fn floor_m(network: &Network) -> u64
    ensures { result ≡ floor_of network.now }
{
    let positions = positions_of(network);
    positive_sum(&positions.sold, &positions.bought, network.members())
}

/// The gross above the sum of the positive net positions.
pub fn excess(network: &Network) -> u64
    ensures { result ≡ excess_of network.now }
{
    let positions = positions_of(network);
    positions.gross - positive_sum(&positions.sold, &positions.bought, network.members())
}
