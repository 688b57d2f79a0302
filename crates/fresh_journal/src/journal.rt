//! A whole journal as bytes.

ghost use Rattle.std.specs.Prelude.{◌≡◌, ◌↔◌, ◌≤◌, ◌<◌, ◌+◌, length, IfOk, IfSome, IsNone, OnOk};
ghost use Rattle.command_types.specs.declared.spelling.Spelling.TheVariants.{Second};
ghost use Rattle.command_types.specs.Bases.{base_spelling, CanBeWritten, Fits};
ghost use Rattle.command_types.specs.Roster.{Rows};
ghost use Rattle.journal_core.specs.Holds.{limit};
ghost use Rattle.recovery.specs.StandsFor.{StandsFor};
ghost use Rattle.fresh_journal.specs.Journals.{begun_history, journal_of};

use base_codec::encode_base;
use command_types::Base;
use journal_core::FIRST_BODY;
use std::alloc::{AllocError, Global};
use units_core::MOST_JOURNAL;

/// The place of the first gate, behind a base of no bytes.
const GATE_AT: usize = FIRST_BODY as usize + 4;

// The journal's bytes, where the base's length has four bytes.
fn journal_bytes(alloc: Global, base: &[u8]) -> Result<Vec<u8>, AllocError>
    requires { length base.now < 4294967296 }
    ensures { IfOk result (λ bytes. bytes.items ≡ journal_of base.now) }
{
    let mut bytes = Vec::from_slice(alloc, b"OTCJRNLC")?;
    bytes.push(0)?;
    bytes.extend_from_slice(&FIRST_BODY.to_le_bytes())?;
    bytes.extend_from_slice(&0u64.to_le_bytes())?;
    bytes.extend_from_slice(&(base.len() as u32).to_le_bytes())?;
    bytes.extend_from_slice(base)?;
    bytes.push(0)?;
    Ok(bytes)
}

/// The bytes of a journal that begins with this base and has no changes: none exactly where its gate would not stand before
/// a journal's most. The only error is want of memory.
pub fn fresh_journal(alloc: Global, base: &Base) -> Result<Option<Vec<u8>>, AllocError>
    requires { CanBeWritten base.now }
    ensures bytes { IfOk result (λ made. IfSome made (λ bytes. bytes.items ≡ journal_of (base_spelling Second base.now))) }
    ensures stands { IfOk result (λ made. IfSome made (λ bytes. (roster : Rows) → Fits roster base.now → StandsFor bytes.items (begun_history roster base.now))) }
    ensures too_long { IfOk result (λ made. IsNone made ↔ (limit ≤ 29 + length (base_spelling Second base.now))) }
{
    let written = encode_base(alloc, base)?;
    if written.len() >= MOST_JOURNAL as usize - GATE_AT {
        return Ok(None);
    }
    let bytes = journal_bytes(alloc, &written)?;
    Ok(Some(bytes))
}
