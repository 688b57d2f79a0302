//! Phases, until nothing is left to send.
//!
//! ```text
//!          start: receivers are level 0
//!                    |
//!                    v
//!      +--------> layer: back along open arcs, a level at a time
//!      |             |                          |
//!      |    no sender is reached        a sender is reached
//!      |             |                          |
//!      |             v                          v
//!      +--- next_phase: the prices of     send_phase: walk down the levels, push along
//!      |    those not reached rise        the path, until none is left of that length
//!      |                                        |
//!      +----------------- start <---------------+      done: no sender is left
//! ```

ghost use Rattle.std.specs.Prelude.{◌+◌, ◌≤◌};
ghost use Rattle.path_solver.specs.Groups.{AreSortedIn};
ghost use Rattle.path_solver.specs.Phases.{IsSettled};
ghost use Rattle.path_solver.specs.Works.{IsWork, IsRoom, IsFeasibleIn, ArePhased};
ghost use Rattle.path_solver.specs.Counts.{path_steps};

use crate::labels::Labels;
use crate::layers::{Aim, layer};
use crate::prices::Prices;
use crate::room::Room;
use crate::search::start;
use crate::sending::send_phase;
use crate::stand::{Stand, Trip};
use crate::work::Work;
use member_set::MemberSet;
use residual_graph::Steps;
use std::sync::ledger::Ledger;

/// Sends along paths what is left to send in the first phase, and in those behind it. The prices become those of the last.
pub fn settle_phases<L: Ledger>(
    work: &mut Work,
    prices: &mut Prices,
    room: &mut Room,
    steps: &mut Steps<L>,
)
    requires work { IsWork work.old }
    requires room { IsRoom work.old.residual.members room.old }
    requires sorted { AreSortedIn work.old.residual.members prices.old }
    requires phase { ArePhased work.old prices.old }
    requires feasible { IsFeasibleIn work.old }
    ensures settled { IsSettled work.old.residual work.new.residual work.old.balance.surplus.items work.old.balance.lack.items prices.new.by_member.items }
    ensures counted { steps.new ≤ steps.old + path_steps work.old.residual }
{
    let levels: &mut [u16] = &mut room.levels;
    let layers: &mut [MemberSet] = &mut room.layers;
    let path: &mut [u32] = &mut room.path;
    let mut senders = work.balance.senders();
    let mut receivers = work.balance.receivers();
    let mut search = start(levels, &receivers);
    'phases: while !senders.is_empty() {
        let aim = Aim {
            groups: &prices.groups,
            prices: &prices.by_member,
            senders: &senders,
        };
        match layer(work, &aim, levels, layers, &mut search) {
            None => prices.next_phase(work, levels, layers, &mut search),
            Some(source) => {
                let labels = Labels {
                    groups: &prices.groups,
                    prices: &prices.by_member,
                    levels,
                };
                let trip = Trip {
                    labels: &labels,
                    from: source,
                    stand: Stand::at(source),
                };
                send_phase(work, layers, path, &trip, steps);
                senders = work.balance.senders_among(senders);
                receivers = work.balance.receivers_among(receivers);
                search = start(levels, &receivers);
            }
        }
    }
}
