//! What makes doors.

ghost use Rattle.std.specs.Prelude.{◌≡◌, ℕ, ◌<◌, Option, IfOk, OnOk, OnErr, Err};
ghost use Rattle.outside.specs.Faults.{CountsWhere};
ghost use Rattle.doors.specs.Visits.{Doors, Binds, IsNew, IsLent, Lends, TakesBack};

use crate::door::Door;
use outside::Trouble;

/// Listens at an address, hands out doors for it, and takes them back. A listener counts the calls that failed, and the
/// doors that came back of which a call had failed.
pub trait Listener {
    type Door: Door + Drop;

    // What became of its doors, where it tells that.
    ghost doors: { Self → Option Doors };

    // The count. It never falls, and stands still at the largest number that it can keep.
    ghost faults: { Self → ℕ };

    // For how many seconds a call of a connection's streams may wait; none: without end.
    ghost idle: { Self → Option ℕ };

    /// Listens at this address from now on.
    fn bind(&mut self, address: &str) -> Result<(), Trouble>
        ensures binds { OnOk result (Binds address.now (doors self.old) (doors self.new)) }
        ensures nothing { OnErr result (doors self.new ≡ doors self.old) }
        ensures counts { CountsWhere (result ≡ Err Trouble.Failed) (faults self.old) (faults self.new) }
        ensures waits { idle self.new ≡ idle self.old };

    /// A new door for the connections to that address. It gave none yet, and no call of it failed.
    fn door(&mut self) -> Result<Self::Door, Trouble>
        ensures new { IfOk result (λ d. IsNew (Self.Door.visits d) × (Self.Door.faults d ≡ 0)) }
        ensures lends { IfOk result (λ d. Lends (doors self.old) (doors self.new) (Self.Door.visits d)) }
        ensures nothing { OnErr result (doors self.new ≡ doors self.old) }
        ensures counts { CountsWhere (result ≡ Err Trouble.Failed) (faults self.old) (faults self.new) }
        ensures waits { idle self.new ≡ idle self.old };

    /// Takes a door back that it handed out. It takes no memory.
    fn take_back(&mut self, door: Self::Door)
        requires lent { IsLent (doors self.old) }
        ensures returns { TakesBack (doors self.old) (doors self.new) (Self.Door.visits door) }
        ensures counts { CountsWhere (0 < Self.Door.faults door) (faults self.old) (faults self.new) }
        ensures waits { idle self.new ≡ idle self.old };

    /// Says for how many seconds a call of a connection's streams may wait before it fails, at the doors that are handed out
    /// from now on; none: without end.
    fn set_idle(&mut self, seconds: Option<u64>)
        ensures told { idle self.new ≡ seconds }
        ensures same { doors self.new ≡ doors self.old }
        ensures uncounted { faults self.new ≡ faults self.old };
}
