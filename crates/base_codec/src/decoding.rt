//! Bases, read.
ghost use Rattle.std.specs.Prelude.{◌≡◌, ℕ, Ok, Err, IfOk};
ghost use Rattle.command_types.specs.declared.base.Base.{Base};
ghost use Rattle.command_types.specs.Bases.{SpellsBase};
ghost use Rattle.record_codec.specs.declared.fault.DecodeFault.TheVariants.{BadRecord};
ghost use Rattle.record_codec.specs.Laws.{Gives, Decodes};
ghost use Rattle.base_codec.specs.Reading.{base_fields, base_at, base_of, read_whole_base};

use crate::parts::{read_names, read_settings, read_trades};
use command_types::{Base, Listed};
use record_codec::fields::Unread;
use record_codec::{DecodeFault, ReadFault};
use std::alloc::Global;

#[tactic(auto, unfolding(crate::specs::Reading::base_fields))]
fn read_fields(alloc: Global, unread: &mut Unread) -> Result<Base, ReadFault>
    ensures { Gives (λ base. (base, unread.new.rest.now)) result (base_fields unread.old.rest.now) }
{
    let position = unread.number()?;
    let cycle = unread.number()?;
    let version = unread.number()?;
    let members = read_names(alloc, unread)?;
    let products = read_names(alloc, unread)?;
    let tolerances = read_settings(alloc, unread)?;
    let trades = read_trades(alloc, unread)?;
    Ok(Base {
        position,
        cycle,
        version,
        members: Listed::new(members),
        products: Listed::new(products),
        tolerances: Listed::new(tolerances),
        trades: Listed::new(trades),
    })
}

// The mark, and the fields.
#[tactic(auto, unfolding(crate::specs::Reading::base_at))]
fn read_base(alloc: Global, unread: &mut Unread) -> Result<Base, ReadFault>
    ensures { Gives (λ base. (base, unread.new.rest.now)) result (base_at unread.old.rest.now) }
{
    let [1 | 2, rest @ ..] = unread.rest else {
        return Err(unread.bad());
    };
    unread.rest = rest;
    read_fields(alloc, unread)
}

#[tactic(auto, unfolding(crate::specs::Reading::base_of))]
fn read_whole(alloc: Global, bytes: &[u8]) -> Result<Base, ReadFault>
    ensures { Gives (λ base. base) result (base_of bytes.now) }
{
    let mut unread = Unread { rest: bytes };
    let base = read_base(alloc, &mut unread)?;
    if !unread.rest.is_empty() {
        return Err(unread.bad());
    }
    Ok(base)
}

fn with_offset(alloc: Global, bytes: &[u8]) -> Result<Base, DecodeFault>
    ensures { Decodes result (read_whole_base bytes.now) }
{
    match read_whole(alloc, bytes) {
        Ok(base) => Ok(base),
        Err(ReadFault::Bad { left }) => Err(DecodeFault::BadRecord {
            at: bytes.len().saturating_sub(left),
        }),
        Err(ReadFault::Memory) => Err(DecodeFault::Memory),
    }
}

/// The base that the bytes spell, all of the bytes. Where they spell none, it is the first byte of the first field
/// that breaks the grammar, or of the first setting that is out of order; where bytes stand behind the last field, the
/// first of them. It takes memory for what stands in the bytes, whatever counts stand there.
pub fn decode_base(alloc: Global, bytes: &[u8]) -> Result<Base, DecodeFault>
    // What is read is spelled so.
    ensures found { IfOk result (λ base. SpellsBase bytes.now base) }
    // What is spelled so is read, unless memory runs out.
    ensures only { (base : Base) → SpellsBase bytes.now base → Decodes result (Ok base) }
    // Bytes are bad only where they spell no base.
    ensures bad { (at : ℕ) → result ≡ Err (BadRecord at) → (base : Base) → SpellsBase bytes.now base → ⊥ }
    // Which byte it is.
    ensures exact { Decodes result (read_whole_base bytes.now) }
{
    with_offset(alloc, bytes)
}
