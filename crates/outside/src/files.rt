//! Files that are read by name.
ghost use Rattle.std.specs.Prelude.{◌≡◌, ℕ, ◌≤◌, Option, List, length, Err, IfOk};
ghost use Rattle.outside.specs.Faults.{CountsWhere};
ghost use Rattle.outside.specs.Files.{Folder, IsFront};
ghost use Rattle.outside.specs.declared.trouble.Trouble.TheVariants as trouble;

use crate::Trouble;
use std::alloc::Global;

/// Files that are read by name. They count the calls that failed.
pub trait Files {
    // What they hold, where they tell that.
    ghost folder: { Self → Option Folder };

    // How many of their calls failed. It never falls, and stands still at the largest number that it can keep.
    ghost faults: { Self → ℕ };

    /// The file's first `most` bytes, or all where it has fewer. A file that is not there is a fault.
    fn read_front(&mut self, alloc: Global, name: &str, most: u64) -> Result<Vec<u8>, Trouble>
        ensures reads { IfOk result (λ bytes. IsFront (folder self.old) name.now most bytes.items) }
        ensures few { IfOk result (λ bytes. length bytes.items ≤ most) }
        ensures stays { folder self.new ≡ folder self.old }
        ensures counts { CountsWhere (result ≡ Err trouble.Failed) (faults self.old) (faults self.new) };
}
