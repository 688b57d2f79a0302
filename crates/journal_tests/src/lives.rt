//! Random lives of journals: records are appended and bases folded until a call of the disk fails, a crash leaves one of
//! many images, and the journal is opened again on it. Each image has to hold what was held before, or what the last change
//! makes of it.

ghost use Rattle.std.specs.Prelude.{◌<◌, ◌≤◌, length, IfOk};

use crate::traced_journals::{Deed, Outcome, images_after, walked_of};
use journal_core::{Form, Walked};
use std::alloc::{AllocError, Global};
use std::test::Fail;

// A row of numbers that look random, the same in each run.
#[derive(Drop)]
struct Dice {
    state: u64,
}

impl Dice {
    fn below(&mut self, most: u64) -> u64
        requires { 1 ≤ most }
        ensures { result < most }
    {
        self.state = self
            .state
            .wrapping_mul(6364136223846793005)
            .wrapping_add(1442695040888963407);
        (self.state >> 33) % most
    }

    // Up to six bytes, of which many are 0 or 1, as gates and selectors are.
    fn bytes(&mut self, alloc: Global) -> Result<Vec<u8>, AllocError>
        ensures { IfOk result (λ v. length v.items ≤ 6) }
    {
        let count = self.below(7) as usize;
        let mut bytes = vec![in alloc; 0u8; count]?;
        for index in 0..count {
            bytes[index] = [0, 1, 0, 1, 25, 0xff][self.below(6) as usize];
        }
        Ok(bytes)
    }
}

// What a file holds.
#[derive(Drop, PartialEq, Eq)]
struct Held {
    base: Vec<u8>,
    records: Vec<Vec<u8>>,
}

fn records_of(alloc: Global, walked: &Walked) -> Result<Vec<Vec<u8>>, AllocError> {
    let mut records = Vec::new(alloc);
    let mut left = walked.records();
    for _ in 0..100 {
        let Some(found) = left.next() else {
            break;
        };
        records.push(found.bytes.to_vec(alloc)?)?;
    }
    Ok(records)
}

impl Held {
    fn of(alloc: Global, walked: &Walked) -> Result<Held, AllocError> {
        let base = walked.base().to_vec(alloc)?;
        let records = records_of(alloc, walked)?;
        Ok(Held { base, records })
    }

    // What it makes of this.
    fn after(&self, alloc: Global, deed: Deed<'_>) -> Result<Held, AllocError> {
        match deed {
            Deed::Append(bytes) => {
                let mut records = self.records.clone()?;
                records.push(bytes.to_vec(alloc)?)?;
                let base = self.base.clone()?;
                Ok(Held { base, records })
            }
            Deed::Fold(base) => Ok(Held {
                base: base.to_vec(alloc)?,
                records: Vec::new(alloc),
            }),
        }
    }
}

fn held_in(alloc: Global, file: &[u8]) -> Result<Held, Fail> {
    let walked = walked_of(alloc, file)?;
    Ok(Held::of(alloc, &walked)?)
}

// Whether each image holds what the deed makes of what was held, if the journal was opened, or, if it was not done, what was held.
fn are_right(
    alloc: Global,
    images: &[Vec<u8>],
    before: &Held,
    after: &Held,
    outcome: Outcome,
) -> Result<bool, Fail> {
    for image in images {
        let held = held_in(alloc, image)?;
        let is_before = held == *before && outcome != Outcome::Done;
        let is_after = held == *after && outcome != Outcome::Unopened;
        if !is_before && !is_after {
            return Ok(false);
        }
    }
    Ok(true)
}

// Whether that holds of a deed on a file.
fn is_survived(
    alloc: Global,
    file: &[u8],
    deed: Deed<'_>,
    images: &[Vec<u8>],
    outcome: Outcome,
) -> Result<bool, Fail> {
    let before = held_in(alloc, file)?;
    let after = before.after(alloc, deed)?;
    are_right(alloc, images, &before, &after, outcome)
}

fn has_slots(alloc: Global, file: &[u8]) -> Result<bool, Fail> {
    let walked = walked_of(alloc, file)?;
    Ok(walked.form != Form::Plain)
}

// One of the images, by the dice.
fn chosen(alloc: Global, dice: &mut Dice, images: &[Vec<u8>]) -> Result<Vec<u8>, Fail> {
    let place = dice.below(images.len().max(1) as u64) as usize;
    match images.get(place) {
        Some(image) => Ok(image.to_vec(alloc)?),
        None => Err(Fail::new("no image")),
    }
}

// The file that one opening, a deed and a crash leave of a file, and whether a fold was done.
fn lived(alloc: Global, dice: &mut Dice, file: &[u8]) -> Result<(Vec<u8>, bool), Fail> {
    let call = dice.below(14);
    let is_fold = dice.below(2) == 0 && has_slots(alloc, file)?;
    let bytes = dice.bytes(alloc)?;
    let deed = if is_fold {
        Deed::Fold(&bytes)
    } else {
        Deed::Append(&bytes)
    };
    let (images, outcome) = images_after(alloc, file, deed, call)?;
    if !is_survived(alloc, file, deed, &images, outcome)? {
        return Err(Fail::new("an image holds neither"));
    }
    let next = chosen(alloc, dice, &images)?;
    Ok((next, is_fold && outcome == Outcome::Done))
}

// Files that hold nothing, or are plain.
const BEGINNINGS: [&[u8]; 5] = [
    b"",
    b"\x01\x01\x01\x01\x01\x01\x01\x01\x01",
    b"OTCJRNLC\x01",
    b"OTCJRNLC\x01\x01\x01\x01\x01\x01\x01\x01\x01\x01\x01\x01\x01\x01\x01\x01\x01\x01\x01\x01",
    b"OTCJRNL1\0\x01\x01\x01\x01",
];

// How many folds a life of twelve deeds has.
fn folds_in(alloc: Global, seed: u64) -> Result<u64, Fail> {
    let mut dice = Dice { state: seed };
    let mut file = BEGINNINGS[(seed % 5) as usize].to_vec(alloc)?;
    let mut folds = 0u64;
    for _ in 0..12 {
        let (next, is_folded) = lived(alloc, &mut dice, &file)?;
        if is_folded {
            folds = folds.saturating_add(1);
        }
        file = next;
    }
    Ok(folds)
}

#[test]
fn random_lives_hold_what_they_held_or_the_last_change(rt: HostRuntime) -> Result<(), Fail> {
    let mut folds = 0u64;
    for seed in 0..30u64 {
        folds = folds.saturating_add(folds_in(rt.alloc(), seed)?);
    }
    assert!(rt; folds > 50);
    Ok(())
}
