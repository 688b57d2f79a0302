//! What gives connections.

ghost use Rattle.std.specs.Prelude.{◌≡◌, ℕ, Option, None, IfOk, IfSome, OnErr, Ok, Err};
ghost use Rattle.outside.specs.Faults.{CountsWhere};
ghost use Rattle.doors.specs.Visits.{Visits, IsOver, IsOut, Opens, Returns};

use outside::{Sink, Source, Trouble};

/// Gives connections, one after another, and takes each back once it was served. A door counts the calls that failed.
pub trait Door: Send {
    type In: Source + Drop + Send;

    type Out: Sink + Drop + Send;

    // The connections, where it tells them.
    ghost visits: { Self → Option Visits };

    // How many of its calls failed. It never falls, and stands still at the largest number that it can keep.
    ghost faults: { Self → ℕ };

    /// The next connection, or none where none comes any more. It may wait for one. A new connection gave and took
    /// nothing, and no call of its streams failed.
    fn accept(&mut self) -> Result<Option<(Self::In, Self::Out)>, Trouble>
        ensures opens { IfOk result (λ r. IfSome r (λ c. Opens (visits self.old) (visits self.new) (Self.In.flow c.0) (Self.Out.taken c.1))) }
        ensures fresh { IfOk result (λ r. IfSome r (λ c. (Self.In.faults c.0 ≡ 0) × (Self.Out.faults c.1 ≡ 0))) }
        ensures over { result ≡ Ok None → IsOver (visits self.old) }
        ensures same { result ≡ Ok None → visits self.new ≡ visits self.old }
        ensures nothing { OnErr result (visits self.new ≡ visits self.old) }
        ensures counts { CountsWhere (result ≡ Err Trouble.Failed) (faults self.old) (faults self.new) };

    /// Ends a connection that the door gave. It takes no memory.
    fn give_back(&mut self, input: Self::In, output: Self::Out)
        requires out { IsOut (visits self.old) }
        ensures returns { Returns (visits self.old) (visits self.new) (Self.In.flow input) (Self.Out.taken output) (Self.In.faults input) (Self.Out.faults output) }
        ensures same { faults self.new ≡ faults self.old };
}
