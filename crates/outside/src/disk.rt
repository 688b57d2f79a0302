//! Disks: a content that reads give, and what a crash may leave of it.
ghost use Rattle.std.specs.Prelude.{◌≡◌, ℕ, ◌≤◌, Option, length, IfOk, OnOk, OnErr};
ghost use Rattle.outside.specs.Faults.{CountsFault};
ghost use Rattle.outside.specs.Disk.{History, HasLength, IsPlace, Reads, Steps, Breaks, Change, after_write, after_cut, after_sync};

use crate::Failed;

/// A disk with the bytes of one file. It counts the calls that failed.
///
/// Until a sync succeeds, a crash may leave any bytes in the range of a write and past the old end, and a cut may have
/// happened or not. After it, a crash leaves what a read gives. A call that failed may have done any part of its work.
pub trait Disk: Drop {
    // What it holds, and what a crash may leave at each moment, where it tells them.
    ghost history: { Self → Option History };

    // How many of its calls failed. It never falls, and stands still at the largest number that it can keep.
    ghost fault_count: { Self → ℕ };

    /// How many of its calls failed.
    fn faults(&self) -> u64
        ensures { result ≡ fault_count self.now };

    /// Makes the file of this name the disk's. It changes neither content nor images, and makes no moment.
    fn attach(&mut self, name: &str) -> Result<(), Failed>
        ensures same { history self.new ≡ history self.old }
        ensures counts { CountsFault result (fault_count self.old) (fault_count self.new) };

    /// How many bytes there are.
    fn length(&mut self) -> Result<u64, Failed>
        ensures size { IfOk result (λ n. HasLength (history self.old) n) }
        ensures same { history self.new ≡ history self.old }
        ensures counts { CountsFault result (fault_count self.old) (fault_count self.new) };

    /// Puts the bytes from a place on at the front of `into`, all that are there and fit, and says how many.
    fn read(&mut self, at: u64, into: &mut [u8]) -> Result<usize, Failed>
        ensures count { IfOk result (λ n. n ≤ length into.old) }
        ensures reads { IfOk result (λ n. Reads (history self.old) at n into.old into.new) }
        ensures same { history self.new ≡ history self.old }
        ensures counts { CountsFault result (fault_count self.old) (fault_count self.new) };

    /// Writes the bytes over what is at a place, and past the end.
    fn write_at(&mut self, at: u64, bytes: &[u8]) -> Result<(), Failed>
        requires { IsPlace (history self.old) at }
        ensures written { OnOk result (Steps (after_write at bytes.now) (history self.old) (history self.new)) }
        ensures broken { OnErr result (Breaks (Change.Write at (length bytes.now)) (history self.old) (history self.new)) }
        ensures counts { CountsFault result (fault_count self.old) (fault_count self.new) };

    /// Leaves only the bytes before a length. Fewer bytes stay as they are.
    fn cut(&mut self, length: u64) -> Result<(), Failed>
        ensures shortened { OnOk result (Steps (after_cut length) (history self.old) (history self.new)) }
        ensures broken { OnErr result (Breaks (Change.Cut length) (history self.old) (history self.new)) }
        ensures counts { CountsFault result (fault_count self.old) (fault_count self.new) };

    /// Makes a crash from now on leave the content, until the next write or cut.
    fn sync(&mut self) -> Result<(), Failed>
        ensures synced { OnOk result (Steps after_sync (history self.old) (history self.new)) }
        ensures same { OnErr result (history self.new ≡ history self.old) }
        ensures counts { CountsFault result (fault_count self.old) (fault_count self.new) };
}
