//! Records, written.
ghost use Rattle.std.specs.Prelude.{◌≡◌, ◌≤◌, is_some, IsTrue, IfOk};
ghost use Rattle.command_types.specs.declared.spelling.Spelling.TheVariants.{Second};
ghost use Rattle.command_types.specs.Machine.{changes};
ghost use Rattle.command_types.specs.Spelling.{spelling, Spells, posted, most_solutions};

use crate::put::{put_change, put_name, put_number};
use crate::size::length;
use command_types::Entry;
use std::alloc::{AllocError, Global};

/// The change's record, its second spelling. The only error is want of memory.
pub fn encode(alloc: Global, entry: &Entry) -> Result<Vec<u8>, AllocError>
    requires change { IsTrue (changes entry.now.ask.what) }
    requires party { IsTrue (is_some entry.now.ask.by) }
    requires few { posted entry.now.ask.what ≤ most_solutions }
    ensures exact { IfOk result (λ bytes. bytes.items ≡ spelling Second entry.now) }
    ensures spells { IfOk result (λ bytes. Spells Second bytes.items entry.now) }
{
    let party = entry.ask.by.unwrap();
    let mut bytes = Vec::with_capacity(alloc, length(entry) as usize)?;
    put_number(&mut bytes, entry.ask.moment.seconds())?;
    bytes.extend_from_slice(&entry.seat.to_le_bytes())?;
    put_name(&mut bytes, &party)?;
    put_change(&mut bytes, &entry.ask.what)?;
    Ok(bytes)
}
