//! What a history keeps of a command.

ghost use Rattle.std.specs.Prelude.{◌≡◌};
ghost use Rattle.command_types.specs.Machine.{is_refusal};
ghost use Rattle.command_types.specs.History.{is_recorded};

use crate::machine::is_change;
use command_types::{Answer, What};

fn is_refusal(answer: &Answer) -> bool
    ensures { result ≡ is_refusal answer.now }
{
    matches!(answer, Answer::No(_))
}

/// Whether the history keeps a command that is answered so. It takes no memory.
pub fn is_recorded(what: &What, answer: &Answer) -> bool
    ensures { result ≡ is_recorded what.now answer.now }
{
    is_change(what) && !is_refusal(answer)
}
