//! Sends everything that is to be sent, straight where it can go so and else along paths.

ghost use Rattle.std.specs.Prelude.{◌≡◌, ◌+◌, ◌≤◌, length, IfOk};
ghost use Rattle.path_solver.specs.Rests.{IsFeasible};
ghost use Rattle.path_solver.specs.Phases.{IsPhase};
ghost use Rattle.path_solver.specs.Balances.{IsLowered, Settles};
ghost use Rattle.path_solver.specs.Counts.{path_steps, settle_steps};

use crate::balance::Balance;
use crate::direct::{first_prices, send_direct};
use crate::neighbours::Neighbours;
use crate::phases::settle_phases;
use crate::prices::Prices;
use crate::room::{Room, all_of};
use crate::work::Work;
use residual_graph::{Residual, Steps};
use std::alloc::{AllocError, Global};
use std::sync::ledger::Ledger;

/// Amounts that were moved, and prices that fit them.
#[derive(Drop)]
pub struct Settled {
    pub residual: Residual,
    pub prices: Vec<u16>,
}

/// Sends everything that is to be sent. The prices are 0 where nothing is.
pub fn settle<L: Ledger>(
    alloc: Global,
    residual: Residual,
    balance: Balance,
    steps: &mut Steps<L>,
) -> Result<Settled, AllocError>
    requires { IsLowered residual balance }
    ensures settled { IfOk result (Settles residual balance) }
    ensures counted { steps.new ≤ steps.old + settle_steps residual }
{
    let members = residual.members();
    if balance.senders().is_empty() {
        let prices = all_of(alloc, members, 0u16)?;
        return Ok(Settled { residual, prices });
    }
    let settled = settle_first(alloc, residual, balance, steps)?;
    Ok(settled)
}

/// Sends straight what can go so, and the rest along paths.
fn settle_first<L: Ledger>(
    alloc: Global,
    residual: Residual,
    balance: Balance,
    steps: &mut Steps<L>,
) -> Result<Settled, AllocError>
    requires { IsLowered residual balance }
    ensures settled { IfOk result (Settles residual balance) }
    ensures counted { steps.new ≤ steps.old + settle_steps residual }
{
    let _members = residual.members();
    let mut residual = residual;
    let mut balance = balance;
    let prices = first_prices(alloc, &balance.lack)?;
    send_direct(&mut residual, &prices, &mut balance, steps);
    if balance.senders().is_empty() {
        return Ok(Settled { residual, prices });
    }
    let settled = settle_rest(alloc, residual, balance, prices, steps)?;
    Ok(settled)
}

/// Sends along paths what is left to send in the first phase, and in those behind it.
fn settle_rest<L: Ledger>(
    alloc: Global,
    residual: Residual,
    balance: Balance,
    first: Vec<u16>,
    steps: &mut Steps<L>,
) -> Result<Settled, AllocError>
    requires surplus { residual.members ≡ length balance.surplus.items }
    requires lack { residual.members ≡ length balance.lack.items }
    requires prices { residual.members ≡ length first.items }
    requires phase { IsPhase residual residual balance.surplus.items balance.lack.items balance.surplus.items balance.lack.items first.items 1 }
    requires feasible { IsFeasible residual.flows balance.surplus.items balance.lack.items }
    ensures settled { IfOk result (Settles residual balance) }
    ensures counted { steps.new ≤ steps.old + path_steps residual }
{
    let members = residual.members();
    let neighbours = Neighbours::of(alloc, &residual)?;
    let mut prices = Prices::first(alloc, first)?;
    let mut room = Room::of(alloc, members)?;
    let mut work = Work {
        residual,
        neighbours,
        balance,
    };
    settle_phases(&mut work, &mut prices, &mut room, steps);
    let Work { residual, .. } = work;
    let Prices { by_member, .. } = prices;
    Ok(Settled {
        residual,
        prices: by_member,
    })
}
