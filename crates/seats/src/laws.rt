//! The law on connections, the contract of a function that does nothing.
ghost use Rattle.seats.specs.Answered.{ConnectionsAreAnswered};

/// Where the desk that comes back is not stopped, each connection of a seat none of whose calls failed is answered, every line up
/// to its end, an accepted BYE or the session's limit; but one whose session found no memory at its start.
pub fn connections_are_answered()
    ensures { ConnectionsAreAnswered }
{}
