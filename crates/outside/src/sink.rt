//! Sinks of bytes, and how a whole text goes into one.
ghost use Rattle.std.specs.Prelude.{◌≡◌, ℕ, ◌<◌, ◌≤◌, Option, List, take, length, IfOk, OnOk, OnErr};
ghost use Rattle.outside.specs.Faults.{CountsFault};
ghost use Rattle.outside.specs.Flow.{Takes, TakesFront};

use crate::Failed;

/// Where output goes. A sink counts the calls that failed.
pub trait Sink {
    // The bytes that it took, where it tells them.
    ghost taken: { Self → Option (List ℕ) };

    // How many of its calls failed. It never falls, and stands still at the largest number that it can keep.
    ghost faults: { Self → ℕ };

    /// Takes a front of the bytes, at least one of them where there is one, and says how many. Where it fails, it took
    /// nothing and counted a fault.
    fn write(&mut self, bytes: &[u8]) -> Result<usize, Failed>
        ensures count { IfOk result (λ n. n ≤ length bytes.now) }
        ensures some { IfOk result (λ n. 0 < length bytes.now → 0 < n) }
        ensures takes { IfOk result (λ n. Takes (taken self.old) (taken self.new) (take n bytes.now)) }
        ensures nothing { OnErr result (taken self.new ≡ taken self.old) }
        ensures counts { CountsFault result (faults self.old) (faults self.new) };
}

/// Gives a sink all the bytes, or a front of them that leaves one out, and fails as the sink's call did.
pub fn write_all<K: Sink>(sink: &mut K, bytes: &[u8]) -> Result<(), Failed>
    ensures takes { OnOk result (Takes (K.taken sink.old) (K.taken sink.new) bytes.now) }
    ensures front { OnErr result (TakesFront (K.taken sink.old) (K.taken sink.new) bytes.now) }
    ensures counts { CountsFault result (K.faults sink.old) (K.faults sink.new) }
{
    let mut done = 0;
    while done < bytes.len() {
        done += sink.write(&bytes[done..])?;
    }
    Ok(())
}
