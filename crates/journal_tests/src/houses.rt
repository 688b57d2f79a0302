//! Houses over disks in memory, of three dealers, their operator and one product.

ghost use Rattle.std.specs.Prelude.{◌≡◌, Some, IfOk, IsTrue};
ghost use Rattle.outside.specs.Disk.{IsSettled};
ghost use Rattle.units_core.specs.Name.{is_name};

use command_types::{MemberRow, OperatorRow, ProductRow, Role, Roster};
use house::House;
use journal_core::JournalFault;
use outside::{Disk, MemoryDisk};
use std::alloc::{AllocError, Global};
use std::process::Abort;
use std::test::Fail;
use units_core::{Day, Name};

pub fn named(text: &[u8]) -> Name
    requires { IsTrue (is_name text.now) }
    ensures { result ≡ text.now }
{
    match Name::read(text) {
        None => unreachable!(),
        Some(name) => name,
    }
}

fn dealer(name: Name, key: Name) -> MemberRow
    ensures { result ≡ record { name = name; role = Role.Dealer; key = key } }
{
    MemberRow {
        name,
        role: Role::Dealer,
        key,
    }
}

pub fn day(rt: &impl Abort, text: &[u8]) -> Day {
    Day::read(text).expect(rt, "a day")
}

/// Dealers A, B and C with the keys KA, KB and KC, the operator OPS with KO, and the product P.
pub fn three_dealers(alloc: Global, maturity: Day) -> Result<Roster, AllocError> {
    let a = dealer(named(b"A"), named(b"KA"));
    let b = dealer(named(b"B"), named(b"KB"));
    let c = dealer(named(b"C"), named(b"KC"));
    let members = Vec::from_array(alloc, [a, b, c])?;
    let products = Vec::from_array(
        alloc,
        [ProductRow {
            name: named(b"P"),
            maturity,
        }],
    )?;
    let operator = OperatorRow {
        name: named(b"OPS"),
        key: named(b"KO"),
    };
    Ok(Roster::new(members, products, Some(operator)))
}

/// A disk with room for some thousand trades, that holds these bytes, all of them synced.
pub fn large_disk_of(alloc: Global, bytes: &[u8]) -> Result<MemoryDisk, Fail>
    ensures { IfOk result (λ d. IsSettled (Some d.history)) }
{
    let mut disk = MemoryDisk::new(alloc, 131_072, 96)?;
    disk.write_at(0, bytes)?;
    disk.sync()?;
    Ok(disk.crash())
}

/// Such a disk, whose call with this number fails; of number 0 none does.
pub fn large_failing_disk(alloc: Global, bytes: &[u8], call: u64) -> Result<MemoryDisk, Fail>
    ensures { IfOk result (λ d. IsSettled (Some d.history)) }
{
    let mut disk = large_disk_of(alloc, bytes)?;
    disk.fail_at(call)?;
    Ok(disk)
}

/// What opening a house on a disk answers.
pub fn opened(
    rt: &impl Abort,
    alloc: Global,
    disk: MemoryDisk,
) -> Result<Result<House<MemoryDisk>, (JournalFault, MemoryDisk)>, AllocError>
    requires { IsSettled (Some disk.history) }
{
    let roster = three_dealers(alloc, day(rt, b"2031-06-30"))?;
    Ok(House::new(alloc, roster, disk))
}

/// The disk after a crash that loses what no sync followed.
pub fn crashed(disk: MemoryDisk) -> MemoryDisk
    ensures { IsSettled (Some result.history) }
{
    disk.crash()
}

/// What the disk holds.
pub fn content_of(alloc: Global, disk: &mut MemoryDisk) -> Result<Vec<u8>, Fail> {
    let length = disk.length()?;
    let mut bytes = vec![in alloc; 0u8; length.min(131_072) as usize]?;
    let _ = disk.read(0, &mut bytes)?;
    Ok(bytes)
}

/// How many entries a house on these bytes has, or why it is not opened.
pub fn answer_to(
    rt: &impl Abort,
    alloc: Global,
    bytes: &[u8],
) -> Result<Result<u64, JournalFault>, Fail> {
    match opened(rt, alloc, large_disk_of(alloc, bytes)?)? {
        Ok(house) => {
            let length = house.length();
            let _disk = house.end();
            Ok(Ok(length))
        }
        Err((fault, _)) => Ok(Err(fault)),
    }
}

/// The answer that the file is damaged at this place.
pub fn damaged(offset: u64) -> Result<u64, JournalFault> {
    Err(JournalFault::Damaged { offset })
}

/// The disk that a crash leaves of an opening of a file.
fn left_by_opening(rt: &impl Abort, alloc: Global, file: &[u8]) -> Result<MemoryDisk, Fail> {
    match opened(rt, alloc, large_disk_of(alloc, file)?)? {
        Ok(house) => Ok(crashed(house.end())),
        Err(_) => Err(Fail::new("the house was not opened")),
    }
}

/// What an opening leaves of a file.
pub fn content_opened(rt: &impl Abort, alloc: Global, file: &[u8]) -> Result<Vec<u8>, Fail> {
    let mut disk = left_by_opening(rt, alloc, file)?;
    content_of(alloc, &mut disk)
}

/// The file, turned.
pub fn turned(alloc: Global, file: &[u8]) -> Result<Vec<u8>, AllocError> {
    let mut turned = file[..file.len().saturating_sub(1)].to_vec(alloc)?;
    turned.extend_from_slice(b"\x01\x08\0\0\0MOMENTS2\0")?;
    Ok(turned)
}
