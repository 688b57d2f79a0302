//! The limits of a product in the market of a trade file.
ghost use Rattle.std.specs.Prelude.{◌≡◌, ◌↔◌, true, length, IfOk};
ghost use Rattle.command_types.specs.declared.cycle.Mode.{Mode};
ghost use Rattle.network_laws.specs.Limits.{IsWithinLimits};
ghost use Rattle.file_market.specs.Market.{empty_network, market_limits};

use crate::untouched::untouched_rows;
use command_types::{Mode, Roster};
use network_laws::{Limits, Network};
use std::alloc::{AllocError, Global};
use tolerance_sets::Tolerances;
use units_core::ProductNo;

// The network in which nobody sold anything.
fn empty_network(alloc: Global, roster: &Roster) -> Network
    ensures { result ≡ empty_network roster.now }
{
    let members = roster.members().len() as u16;
    match Network::from_rows(members, Vec::new(alloc)) {
        Ok(network) => network,
        Err(_) => unreachable!(),
    }
}

/// Whether a mode opens every pair.
pub(crate) fn is_free(mode: Mode) -> bool
    ensures { (result ≡ true) ↔ (mode ≡ Mode.Free) }
{
    matches!(mode, Mode::Free)
}

/// The limits of a product's network where no member set a floor or a ceiling and nothing is held.
pub(crate) fn limits_for(
    alloc: Global,
    roster: &Roster,
    mode: Mode,
    product: ProductNo,
    network: &Network,
) -> Result<Limits, AllocError>
    requires { network.now.members ≡ length roster.now.members }
    ensures limits { IfOk result (λ limits. limits ≡ market_limits roster.now mode product network.now) }
    ensures within { IfOk result (λ limits. IsWithinLimits limits network.now) }
{
    if is_free(mode) {
        let held = empty_network(alloc, roster);
        return Tolerances::new(alloc).limits(mode, roster, product, network, &held);
    }
    let members = roster.members();
    let rows = untouched_rows(alloc, mode, members, network.rows())?;
    let Ok(limits) = Limits::from_rows(members.len() as u16, rows) else {
        unreachable!()
    };
    Ok(limits)
}
