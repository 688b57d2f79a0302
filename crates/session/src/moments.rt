//! When commands are asked.

ghost use Rattle.command_types.specs.Session.{IsTime};

use command_types::Moment;
use outside::Clock;

/// The moment that the clock tells now, as a command has it.
pub fn moment_now<C: Clock>(clock: &C) -> Moment
    ensures { IsTime (C.tells clock.now) result }
{
    Moment::new(clock.now())
}
