//! What was said and heard, for contracts alone: lists whose items have no bytes.
ghost use Rattle.std.specs.Prelude.{◌≡◌, [], ◌∷◌, ◌++◌, map, OnOk, OnErr};
ghost use Rattle.standby.specs.Log.{sent_of, offer_of, came};

use crate::peer::{Heard, Said};
use command_types::Entry;
use house::House;
use outside::{Disk, Failed};
use std::alloc::AllocError;
use std::snapshot::Snapshot;

/// A line, and the house as it was when the line was said.
#[derive(Drop)]
pub struct Shown<D: Disk> {
    pub(crate) house: Snapshot<House<D>>,
    pub(crate) line: Snapshot<Said>,
}

/// An entry that was heard, and its position.
#[derive(Drop)]
pub struct Offered {
    pub(crate) position: Snapshot<u64>,
    pub(crate) entry: Snapshot<Entry>,
}

/// What a NEXT of a position came to.
#[derive(Drop)]
pub struct Outcome {
    position: Snapshot<u64>,
    heard: Snapshot<Result<Heard, Failed>>,
}

impl Outcome {
    /// A NEXT of this position came to this.
    pub fn of(position: u64, heard: &Result<Heard, Failed>) -> Outcome
        ensures { came result ≡ record { position = position; heard = heard.now } }
    {
        Outcome {
            position: Snapshot::of(&position),
            heard: Snapshot::of(heard),
        }
    }
}

/// Puts a line behind the others. The only error is want of memory.
pub fn note_said<D: Disk>(
    log: &mut Vec<Shown<D>>,
    house: &House<D>,
    line: Said,
) -> Result<(), AllocError>
    ensures more { OnOk result (map sent_of log.new.items ≡ map sent_of log.old.items ++ record { house = house.now; line = line } ∷ []) }
    ensures same { OnErr result (map sent_of log.new.items ≡ map sent_of log.old.items) }
{
    let shown = Shown {
        house: Snapshot::of(house),
        line: Snapshot::of(&line),
    };
    log.push(shown)?;
    Ok(())
}

/// Puts an entry behind the others. The only error is want of memory.
pub fn note_heard(log: &mut Vec<Offered>, position: u64, entry: &Entry) -> Result<(), AllocError>
    ensures more { OnOk result (map offer_of log.new.items ≡ map offer_of log.old.items ++ record { position = position; entry = entry.now } ∷ []) }
    ensures same { OnErr result (map offer_of log.new.items ≡ map offer_of log.old.items) }
{
    let offered = Offered {
        position: Snapshot::of(&position),
        entry: Snapshot::of(entry),
    };
    log.push(offered)?;
    Ok(())
}
