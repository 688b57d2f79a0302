//! Whether each member has its old net position.

ghost use Rattle.std.specs.Prelude.{◌≡◌, ◌<◌, ◌≤◌};
ghost use Rattle.network_laws.specs.Clash.{net_clash, first_below};

use net_positions::positions_of;
use network_laws::{Clash, Network};

/// The first member whose net position is not the old one. What a member sold and bought is summed for
/// all members in one pass over each network.
pub fn first_net_clash(old: &Network, new: &Network) -> Option<Clash>
    requires { new.now.members ≡ old.now.members }
    ensures { result ≡ first_below old.now.members (net_clash old.now new.now) }
{
    let before = positions_of(old);
    let after = positions_of(new);
    for member in 0..old.members() {
        let place = member as usize;
        if after.sold[place] + before.bought[place] != before.sold[place] + after.bought[place] {
            return Some(Clash::Net { member });
        }
    }
    None
}
