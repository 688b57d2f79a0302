//! The law on lines, the contract of a function that does nothing.
ghost use Rattle.std.specs.Prelude.{true, false};
ghost use Rattle.session.specs.declared.serve.SessionEnd.TheVariants.{Ended, Limit};
ghost use Rattle.session.specs.Answered.{EveryLineIsAnswered};

/// Where a session was told of no stop, every line up to the input's end or an accepted BYE, or else up to the session's limit, is
/// answered: by the machine at a position of the one history, for a full journal, or for want of memory.
pub fn every_line_is_answered()
    ensures ended { EveryLineIsAnswered Ended false }
    ensures limit { EveryLineIsAnswered Limit true }
{}
