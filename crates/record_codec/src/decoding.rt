//! Records, read.
ghost use Rattle.std.specs.Prelude.{◌≡◌, ℕ, Ok, Err, IfOk};
ghost use Rattle.command_types.specs.declared.ask.Entry.{Entry};
ghost use Rattle.command_types.specs.Spelling.{Spells};
ghost use Rattle.record_codec.specs.declared.fault.DecodeFault.TheVariants.{BadRecord};
ghost use Rattle.record_codec.specs.Laws.{Gives, Decodes};
ghost use Rattle.record_codec.specs.Reading.{entry_at, entry_of, read_record};

use crate::change::read_change;
use crate::fault::{DecodeFault, ReadFault};
use crate::fields::Unread;
use command_types::{Ask, Entry, Spelling};
use std::alloc::Global;

#[tactic(auto, unfolding(crate::specs::Reading::entry_at))]
fn read_entry(alloc: Global, form: Spelling, unread: &mut Unread) -> Result<Entry, ReadFault>
    ensures { Gives (λ entry. (entry, unread.new.rest.now)) result (entry_at form unread.old.rest.now) }
{
    let moment = unread.moment(form)?;
    let seat = unread.seat()?;
    let party = unread.name()?;
    let what = read_change(alloc, unread)?;
    let ask = Ask {
        by: Some(party),
        what,
        moment,
    };
    Ok(Entry { seat, ask })
}

#[tactic(auto, unfolding(crate::specs::Reading::entry_of))]
fn read_whole(alloc: Global, form: Spelling, bytes: &[u8]) -> Result<Entry, ReadFault>
    ensures { Gives (λ entry. entry) result (entry_of form bytes.now) }
{
    let mut unread = Unread { rest: bytes };
    let entry = read_entry(alloc, form, &mut unread)?;
    if !unread.rest.is_empty() {
        return Err(unread.bad());
    }
    Ok(entry)
}

fn with_offset(alloc: Global, form: Spelling, bytes: &[u8]) -> Result<Entry, DecodeFault>
    ensures { Decodes result (read_record form bytes.now) }
{
    match read_whole(alloc, form, bytes) {
        Ok(entry) => Ok(entry),
        Err(ReadFault::Bad { left }) => Err(DecodeFault::BadRecord {
            at: bytes.len().saturating_sub(left),
        }),
        Err(ReadFault::Memory) => Err(DecodeFault::Memory),
    }
}

/// The change of which the bytes, all of them, are this spelling. Where they are of none, it is the first byte of the
/// first field that breaks the grammar; where bytes stand behind the last field, the first of them.
pub fn decode(alloc: Global, bytes: &[u8], form: Spelling) -> Result<Entry, DecodeFault>
    // What is read is spelled so.
    ensures found { IfOk result (λ entry. Spells form bytes.now entry) }
    // What is spelled so is read, unless memory runs out.
    ensures only { (entry : Entry) → Spells form bytes.now entry → Decodes result (Ok entry) }
    // Bytes are bad only where they spell no change.
    ensures bad { (at : ℕ) → result ≡ Err (BadRecord at) → (entry : Entry) → Spells form bytes.now entry → ⊥ }
    // Which byte it is.
    ensures exact { Decodes result (read_record form bytes.now) }
{
    with_offset(alloc, form, bytes)
}
