//! Sources of bytes.
ghost use Rattle.std.specs.Prelude.{◌≡◌, ℕ, ◌<◌, ◌≤◌, Option, take, length, IfOk, OnErr, Ok};
ghost use Rattle.outside.specs.Faults.{CountsFault};
ghost use Rattle.outside.specs.Flow.{Flow, Gives, IsAtEnd};

use crate::Failed;

/// Where input comes from. A source counts the calls that failed.
pub trait Source {
    // What it gave and what it has left, where it tells that.
    ghost flow: { Self → Option Flow };

    // How many of its calls failed. It never falls, and stands still at the largest number that it can keep.
    ghost faults: { Self → ℕ };

    /// Puts the next bytes at the front of `into`, at most as many as there is room for, and says how many. 0 in a
    /// room that is not empty is the end of the input. Where it fails, it gave nothing and counted a fault.
    fn read(&mut self, into: &mut [u8]) -> Result<usize, Failed>
        ensures count { IfOk result (λ n. n ≤ length into.old) }
        ensures gives { IfOk result (λ n. Gives (flow self.old) (flow self.new) (take n into.new)) }
        ensures end { result ≡ Ok 0 → 0 < length into.old → IsAtEnd (flow self.new) }
        ensures nothing { OnErr result (flow self.new ≡ flow self.old) }
        ensures counts { CountsFault result (faults self.old) (faults self.new) };
}
