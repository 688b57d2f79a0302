//! What is decided of a command.

use super::ready::Ready;
use command_types::Answer;

/// What is decided of a command, once.
#[derive(Drop)]
pub enum Decision {
    /// It changes nothing, since it is refused or a read, and is answered so.
    Told(Answer),
    /// It is a change, which the machine is ready to make.
    Ready(Ready),
}
