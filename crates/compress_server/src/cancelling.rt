//! A machine whose operator cancels the open cycle. When the journal is full, nobody can do that by a line any more.

ghost use Rattle.std.specs.Prelude.{◌≡◌, true, Some, length, IfOk, OnOk};
ghost use Rattle.command_types.specs.declared.ask.What.TheVariants.{Cancel};
ghost use Rattle.command_types.specs.History.{IsLegalFrom, replayed_from};
ghost use Rattle.command_types.specs.Roster.{is_operator};
ghost use Rattle.cycle_states.specs.Machine.{IsYoung};
ghost use Rattle.compress_server.specs.Cancelled.{cancel_of};

use command_types::{Answer, Ask, Entry, Moment, Refusal, What};
use cycle_states::{Decision, Machine};
use std::alloc::AllocError;
use units_core::Name;

// This party asks to cancel the cycle of this number.
fn cancel(party: Name, cycle: u64) -> Ask
    ensures { result ≡ record { by = Some party; what = Cancel cycle; moment = 0 } }
{
    Ask {
        by: Some(party),
        what: What::Cancel { cycle },
        moment: Moment::new(0),
    }
}

// The number of the last cycle. A CANCEL of cycle 0 is answered with it, unless it is 0.
fn last_cycle(machine: &Machine, operator: Name) -> Result<u64, AllocError>
    requires young { IsYoung machine.now.state.cycle }
    requires operator { is_operator machine.now.state.roster operator ≡ true }
    ensures { IfOk result (λ number. number ≡ machine.now.state.cycle.number) }
{
    match machine.answer(&cancel(operator, 0))? {
        Answer::No(Refusal::WrongCycle { cycle }) => Ok(cycle),
        _ => Ok(0),
    }
}

/// Has the operator cancel the last cycle, if there is an operator and the cycle is open. It answers how many changes that is: one
/// or none. The only error is want of memory.
pub fn cancel_open(machine: &mut Machine) -> Result<u64, AllocError>
    requires { IsYoung machine.old.state.cycle }
    ensures count { IfOk result (λ count. count ≡ length (cancel_of machine.old.state)) }
    ensures state { OnOk result (machine.new.state ≡ replayed_from machine.old.state (cancel_of machine.old.state)) }
    ensures legal { OnOk result (IsLegalFrom machine.old.state (cancel_of machine.old.state)) }
{
    let Some(row) = machine.roster().operator() else {
        return Ok(0);
    };
    let cycle = last_cycle(machine, row.name)?;
    let ask = cancel(row.name, cycle);
    match machine.decide(Entry { seat: 0, ask })? {
        Decision::Told(_) => Ok(0),
        Decision::Ready(ready) => {
            let _made = machine.commit(ready);
            Ok(1)
        }
    }
}
