//! The test of a certificate.

ghost use Rattle.std.specs.Prelude.{◌≡◌, ◌↔◌, length, IsNone};
ghost use Rattle.network_laws.specs.Limits.{IsCertified};
ghost use Rattle.network_laws.specs.Clash.{first_clash};

use crate::bounds_test::first_bounds_clash;
use crate::clean_test::are_clean;
use crate::net_test::first_net_clash;
use crate::pair_cursor::Pairs;
use crate::price_test::first_price_clash;
use network_laws::{Clash, Limits, Network};

/// The first clash of a new network with the limits, the old net positions and the potentials; `None`
/// exactly where it is certified, and so has the least gross of all admissible networks. Potentials
/// are in units of gross per unit moved, one for each member.
///
/// The order of clashes: pairs by seller and buyer, with `Below` before `Above`; then members; then
/// pairs again, with `Open` before `Slack`.
pub fn check(limits: &Limits, old: &Network, new: &Network, potentials: &[i32]) -> Option<Clash>
    requires limit_members { limits.now.members ≡ old.now.members }
    requires new_members { new.now.members ≡ old.now.members }
    requires potentials { length potentials.now ≡ old.now.members }
    ensures clash { result ≡ first_clash limits.now old.now new.now potentials.now }
    ensures certified { IsNone result ↔ IsCertified limits.now old.now new.now potentials.now }
{
    let limit_rows = limits.rows();
    let rows = new.rows();
    let members = old.members();
    let pairs = Pairs {
        members,
        limits: limit_rows,
        rows,
    };
    if are_clean(&pairs, potentials) {
        return first_net_clash(old, new);
    }
    if let Some(clash) = first_bounds_clash(&pairs) {
        return Some(clash);
    }
    if let Some(clash) = first_net_clash(old, new) {
        return Some(clash);
    }
    first_price_clash(&pairs, potentials)
}
