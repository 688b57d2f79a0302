//! Houses over disks in memory, of three dealers, their operator and one product.

ghost use Rattle.std.specs.Prelude.{◌≡◌, Some, IfOk, IsTrue};
ghost use Rattle.outside.specs.Disk.{IsSettled};
ghost use Rattle.units_core.specs.Name.{is_name};

use command_types::{
    Answer, Ask, MemberRow, Moment, OperatorRow, ProductRow, Reply, Role, Roster, What,
};
use house::House;
use journal_core::JournalFault;
use outside::{Disk, MemoryDisk};
use std::alloc::{AllocError, Global};
use std::process::Abort;
use std::test::Fail;
use units_core::{Day, Name};

pub fn named(text: &[u8]) -> Name
    requires { IsTrue (is_name text.now) }
    ensures { result ≡ text.now }
{
    match Name::read(text) {
        None => unreachable!(),
        Some(name) => name,
    }
}

fn dealer(name: Name, key: Name) -> MemberRow
    ensures { result ≡ record { name = name; role = Role.Dealer; key = key } }
{
    MemberRow {
        name,
        role: Role::Dealer,
        key,
    }
}

pub fn day(rt: &impl Abort, text: &[u8]) -> Day {
    Day::read(text).expect(rt, "a day")
}

/// Dealers A, B and C with the keys KA, KB and KC, the operator OPS with KO, and the product P.
fn three_dealers(alloc: Global, maturity: Day) -> Result<Roster, AllocError> {
    let a = dealer(named(b"A"), named(b"KA"));
    let b = dealer(named(b"B"), named(b"KB"));
    let c = dealer(named(b"C"), named(b"KC"));
    let members = Vec::from_array(alloc, [a, b, c])?;
    let products = Vec::from_array(
        alloc,
        [ProductRow {
            name: named(b"P"),
            maturity,
        }],
    )?;
    let operator = OperatorRow {
        name: named(b"OPS"),
        key: named(b"KO"),
    };
    Ok(Roster::new(members, products, Some(operator)))
}

/// A disk with room for a session, that holds these bytes, all of them synced.
pub fn large_disk_of(alloc: Global, bytes: &[u8]) -> Result<MemoryDisk, Fail>
    ensures { IfOk result (λ d. IsSettled (Some d.history)) }
{
    let mut disk = MemoryDisk::new(alloc, 8192, 96)?;
    disk.write_at(0, bytes)?;
    disk.sync()?;
    Ok(disk.crash())
}

/// What opening a house on a disk answers.
pub fn opened(
    rt: &impl Abort,
    alloc: Global,
    disk: MemoryDisk,
) -> Result<Result<House<MemoryDisk>, (JournalFault, MemoryDisk)>, AllocError>
    requires { IsSettled (Some disk.history) }
{
    let roster = three_dealers(alloc, day(rt, b"2031-06-30"))?;
    Ok(House::new(alloc, roster, disk))
}

/// The house that is opened on a disk.
pub fn house_on(rt: &impl Abort, alloc: Global, disk: MemoryDisk) -> Result<House<MemoryDisk>, Fail>
    requires { IsSettled (Some disk.history) }
{
    match opened(rt, alloc, disk)? {
        Ok(house) => Ok(house),
        Err(_) => Err(Fail::new("the house was not opened")),
    }
}

/// The disk of a house, given back.
pub fn disk_below(house: House<MemoryDisk>) -> MemoryDisk {
    house.end()
}

/// The disk after a crash that loses what no sync followed.
pub fn crashed(disk: MemoryDisk) -> MemoryDisk
    ensures { IsSettled (Some result.history) }
{
    disk.crash()
}

/// The reply to a party's command of moment 0.
pub fn said(house: &mut House<MemoryDisk>, by: &[u8], what: What) -> Reply
    requires { IsTrue (is_name by.now) }
{
    let by = Some(named(by));
    let moment = Moment::new(0);
    house.call(0, Ask { by, what, moment })
}

/// Whether the market has this gross in the product, as the operator is told at this position.
pub fn has_gross(house: &mut House<MemoryDisk>, at: u64, most: u64) -> bool {
    let product = named(b"P");
    let reply = said(house, b"OPS", What::Nets { product });
    match &reply.answer {
        Answer::Market { gross, .. } => *gross == most && reply.at == at,
        _ => false,
    }
}

/// Whether a house on this disk has so many entries, and this gross.
pub fn is_found(
    rt: &impl Abort,
    alloc: Global,
    disk: MemoryDisk,
    length: u64,
    gross: u64,
) -> Result<bool, Fail>
    requires { IsSettled (Some disk.history) }
{
    let mut house = house_on(rt, alloc, disk)?;
    let is_as_long = house.length() == length;
    Ok(has_gross(&mut house, length, gross) && is_as_long)
}
