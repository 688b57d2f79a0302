//! Lives of houses, as data: what the parties say and are told, and what is found again behind them.

ghost use Rattle.std.specs.Prelude.{◌≡◌, Some, IfSome};
ghost use Rattle.outside.specs.Disk.{IsSettled};

use crate::houses::{content_of, crashed, day, large_disk_of, large_failing_disk, named, opened};
use command_types::{Answer, Ask, Listed, Mode, Moment, Refusal, What};
use house::House;
use journal_core::JournalFault;
use network_laws::{Network, Solution};
use outside::{Disk, MemoryDisk};
use std::alloc::Global;
use std::process::Abort;
use std::test::Fail;
use units_core::{Amount, Name};

#[derive(Clone, Copy)]
pub enum Party {
    A,
    B,
    C,
    Operator,
}

/// What a party says.
#[derive(Clone, Copy)]
pub enum Said {
    /// That it owes this party 10.
    Trade(Party),
    Affirm(u64),
    Hold(u64),
    Freeze,
    Begin,
    /// The posting of a solution in which nobody owes anything.
    PostNothing,
    Vote,
    Nets,
    /// That it wants the entry behind this position.
    Next(u64),
}

/// What it is told.
#[derive(Clone, Copy, PartialEq, Eq)]
pub enum Told {
    Done,
    No(Refusal),
    /// The market's gross.
    Gross(u64),
    /// What it owes, and what it is owed.
    Own(u64, u64),
    /// The entry at this position, as these bytes.
    Entry(u64, &'static [u8]),
    NoNext,
}

/// A party says something at noon on 2026-03-31, and is told so at this position.
pub type Step = (Party, Said, u64, Told);

/// How a life ends: the house is open, it was stopped, it was not opened for a fault of the disk, or something else was told.
#[derive(Clone, Copy, PartialEq, Eq)]
pub enum End {
    Open,
    Stopped,
    Unopened,
    Other,
}

/// A house on a file, whose disk fails at the call with this number, if it is not 0, and two lists of steps, one after the other.
#[derive(Clone, Copy)]
pub struct Life<'a> {
    pub file: &'a [u8],
    pub failing: u64,
    pub first: &'a [Step],
    pub then: &'a [Step],
    pub end: End,
}

pub fn name_of(party: Party) -> Name {
    match party {
        Party::A => named(b"A"),
        Party::B => named(b"B"),
        Party::C => named(b"C"),
        Party::Operator => named(b"OPS"),
    }
}

fn no_rows(alloc: Global) -> Option<Network>
    ensures { IfSome result (λ network. network.members ≡ 3) }
{
    match Network::from_rows(3, Vec::new(alloc)) {
        Ok(network) => Some(network),
        Err(_) => None,
    }
}

fn post_of_nothing(alloc: Global) -> Option<What> {
    let Ok(potentials) = Vec::from_array(alloc, [0, 0, 0]) else {
        return None;
    };
    let solution = Solution::new(no_rows(alloc)?, potentials);
    let Ok(solutions) = Vec::from_array(alloc, [solution]) else {
        return None;
    };
    Some(What::Post {
        cycle: 1,
        version: 1,
        solutions: Listed::new(solutions),
    })
}

/// What it is as a command, if there is memory.
pub fn what_of(rt: &impl Abort, alloc: Global, by: Party, said: Said) -> Option<What> {
    let (cycle, version, mode) = (1, 1, Mode::Conservative);
    Some(match said {
        Said::Trade(buyer) => What::Trade {
            seller: name_of(by),
            buyer: name_of(buyer),
            product: named(b"P"),
            amount: Amount::new(10).expect(rt, "an amount"),
            day: day(rt, b"2026-03-02"),
        },
        Said::Affirm(trade) => What::Affirm { trade },
        Said::Hold(trade) => What::Hold { trade },
        Said::Freeze => What::Freeze {
            day: day(rt, b"2026-03-31"),
        },
        Said::Begin => What::Begin { cycle, mode },
        Said::PostNothing => return post_of_nothing(alloc),
        Said::Vote => What::Accept { cycle, version },
        Said::Nets => What::Nets {
            product: named(b"P"),
        },
        Said::Next(position) => What::Next { position },
    })
}

pub fn told_of(answer: &Answer) -> Told {
    match answer {
        Answer::No(refusal) => Told::No(*refusal),
        Answer::Market { gross, .. } => Told::Gross(*gross),
        Answer::Own { out, into, .. } => Told::Own(*out, *into),
        Answer::NoNext => Told::NoNext,
        _ => Told::Done,
    }
}

/// Whether the answer is what a step tells.
fn is_answer(answer: &Answer, told: &Told) -> bool {
    match (told, answer) {
        (Told::Entry(at, wanted), Answer::EntryBytes { position, bytes }) => {
            position == at && bytes.rows() == *wanted
        }
        _ => told_of(answer) == *told,
    }
}

/// Whether a house tells this step as it stands.
fn is_told(rt: &impl Abort, alloc: Global, house: &mut House<MemoryDisk>, step: &Step) -> bool {
    let (party, said, at, told) = step;
    let Some(what) = what_of(rt, alloc, *party, *said) else {
        return false;
    };
    let by = Some(name_of(*party));
    let moment = Moment::new(1_774_958_400);
    let reply = house.call(0, Ask { by, what, moment });
    reply.at == *at && is_answer(&reply.answer, told)
}

/// Whether a house tells these steps as they stand.
fn are_told(rt: &impl Abort, alloc: Global, house: &mut House<MemoryDisk>, steps: &[Step]) -> bool {
    for step in steps {
        if !is_told(rt, alloc, house, step) {
            return false;
        }
    }
    true
}

/// The end of a house that is told these steps, and its disk.
fn lived(
    rt: &impl Abort,
    alloc: Global,
    house: House<MemoryDisk>,
    first: &[Step],
    then: &[Step],
) -> (End, MemoryDisk) {
    let mut house = house;
    let are_told = are_told(rt, alloc, &mut house, first) && are_told(rt, alloc, &mut house, then);
    let end = match (are_told, house.is_stopped()) {
        (true, false) => End::Open,
        (true, true) => End::Stopped,
        (false, _) => End::Other,
    };
    (end, house.end())
}

/// Whether a life ends as it says, and its disk.
fn ended(rt: &impl Abort, alloc: Global, life: &Life<'_>) -> Result<(bool, MemoryDisk), Fail> {
    let disk = large_failing_disk(alloc, life.file, life.failing)?;
    match opened(rt, alloc, disk)? {
        Ok(house) => {
            let (end, disk) = lived(rt, alloc, house, life.first, life.then);
            Ok((end == life.end, disk))
        }
        Err((fault, disk)) => {
            let is_fault = fault == JournalFault::DiskFault && disk.faults() == 1;
            Ok((is_fault && life.end == End::Unopened, disk))
        }
    }
}

/// Whether a house on this disk has so many entries, and this gross.
pub fn is_found(
    rt: &impl Abort,
    alloc: Global,
    disk: MemoryDisk,
    found: (u64, u64),
) -> Result<bool, Fail>
    requires { IsSettled (Some disk.history) }
{
    let asked = [(Party::Operator, Said::Nets, found.0, Told::Gross(found.1))];
    match opened(rt, alloc, disk)? {
        Ok(house) => {
            let is_as_long = house.length() == found.0;
            let (end, _) = lived(rt, alloc, house, &asked, &[]);
            Ok(end == End::Open && is_as_long)
        }
        Err(_) => Ok(false),
    }
}

/// Whether a life ends as it says, and a house has so many entries and this gross both on what a crash leaves of its disk, and
/// on all that was written.
pub fn is_lived(
    rt: &impl Abort,
    alloc: Global,
    life: &Life<'_>,
    kept: (u64, u64),
    written: (u64, u64),
) -> Result<bool, Fail> {
    let (is_right, mut disk) = ended(rt, alloc, life)?;
    let content = content_of(alloc, &mut disk)?;
    let is_kept = is_found(rt, alloc, crashed(disk), kept)?;
    Ok(is_right && is_kept && is_found(rt, alloc, large_disk_of(alloc, &content)?, written)?)
}

/// Whether an opening of a file fails in each of so many calls of its disk, and so much is found behind it.
pub fn fails_in_each(
    rt: &impl Abort,
    alloc: Global,
    file: &[u8],
    calls: u64,
    found: (u64, u64),
) -> Result<bool, Fail> {
    for failing in 1..=calls {
        let life = Life {
            file,
            failing,
            first: &[],
            then: &[],
            end: End::Unopened,
        };
        if !is_lived(rt, alloc, &life, found, found)? {
            return Ok(false);
        }
    }
    Ok(true)
}
