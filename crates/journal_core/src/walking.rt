//! A walk over a journal's file.
ghost use Rattle.std.specs.Prelude.{◌≡◌, ◌≢◌, ◌≤◌, ◌<◌, List, ℕ, length, take, get_or, IfOk, IfErr, Err};
ghost use Rattle.std.specs.Int.{w64, to_le_bytes};
ghost use Rattle.outside.specs.Faults.{CountsWhere};
ghost use Rattle.journal_core.specs.Holds.{slots_header, limit, Selects};
ghost use Rattle.journal_core.specs.Journal.{EndsAt, HasForm};
ghost use Rattle.journal_core.specs.Lead.{IsLed, EndsLed, EndsBehind};
ghost use Rattle.journal_core.specs.Walk.{IsBadLead, IsBreak, IsWalked, FindsRecords, FindsFault, bytes_of};

use crate::form::{FIRST_BODY, HEADER, place_of};
use crate::journal::LIMIT;
use crate::parts::{behind_open, record_of};
use crate::{Form, JournalFault, Walked};
use outside::Disk;
use std::alloc::Global;

// How a file begins: its form, where its base begins, and where it ends, at the first gate.
#[derive(Clone, Copy)]
struct Lead {
    form: Form,
    base: usize,
    gate: usize,
}

// The number that eight bytes spell, the lowest first.
fn offset_of(bytes: &[u8]) -> u64
    requires { length bytes.now ≡ 8 }
    ensures { to_le_bytes w64 result ≡ bytes.now }
{
    u64::from_le_bytes([
        bytes[0], bytes[1], bytes[2], bytes[3], bytes[4], bytes[5], bytes[6], bytes[7],
    ])
}

// The slot that is selected.
fn selected_in(bytes: &[u8]) -> u8
    requires { 9 ≤ length bytes.now }
    ensures { Selects (get_or bytes.now 8 0) result }
{
    if bytes[HEADER] == 1 { 1 } else { 0 }
}

// What stands before the first gate of a file with slots.
fn slots_lead(bytes: &[u8]) -> Result<Lead, JournalFault>
    requires long { 31 ≤ length bytes.now }
    requires header { take 8 bytes.now ≡ slots_header }
    ensures led { IfOk result (λ l. IsLed bytes.now l.form l.base l.gate) }
    ensures fault { IfErr result (IsBadLead bytes.now) }
{
    let selected = selected_in(bytes);
    let slot = place_of(selected) as usize;
    let offset = offset_of(&bytes[slot..slot + 8]);
    if offset < FIRST_BODY {
        return Err(JournalFault::Damaged { offset });
    }
    if offset > bytes.len() as u64 {
        return Err(JournalFault::Damaged { offset });
    }
    let start = offset as usize;
    let Some((base, _)) = record_of(&bytes[start..]) else {
        return Err(JournalFault::Damaged { offset });
    };
    let gate = start + 4 + base.len();
    if gate as u64 >= LIMIT {
        return Err(JournalFault::Damaged { offset });
    }
    Ok(Lead {
        form: Form::Slots { selected, offset },
        base: start + 4,
        gate,
    })
}

// What stands before the first gate of a file.
fn lead_of(bytes: &[u8]) -> Result<Lead, JournalFault>
    ensures led { IfOk result (λ l. IsLed bytes.now l.form l.base l.gate) }
    ensures fault { IfErr result (IsBadLead bytes.now) }
{
    let size = bytes.len();
    if size < 10 {
        return Ok(Lead {
            form: Form::Short,
            base: size,
            gate: size,
        });
    }
    if bytes.starts_with(b"OTCJRNL1") {
        return Ok(Lead {
            form: Form::Plain,
            base: HEADER,
            gate: HEADER,
        });
    }
    if !bytes.starts_with(b"OTCJRNLC") {
        return Err(JournalFault::Damaged { offset: 0 });
    }
    if size < 31 {
        return Ok(Lead {
            form: Form::SlotsShort,
            base: size,
            gate: size,
        });
    }
    slots_lead(bytes)
}

// The place just past the gate behind the records that stand in the bytes from a gate at this place on.
fn end_behind(bytes: &[u8], gate: u64) -> Result<u64, JournalFault>
    requires small { gate < limit }
    ensures found { IfOk result (EndsBehind gate bytes.now) }
    ensures fault { IfErr result (IsBreak gate bytes.now) }
{
    let mut rest = bytes;
    let mut at = gate;
    while let Some(body) = behind_open(rest) {
        let Some((record_bytes, after)) = record_of(body) else {
            return Err(JournalFault::Damaged { offset: at });
        };
        let next = at
            .saturating_add(5)
            .saturating_add(record_bytes.len() as u64);
        if next >= LIMIT {
            return Err(JournalFault::Damaged { offset: at });
        }
        at = next;
        rest = after;
    }
    if rest.is_empty() {
        return Err(JournalFault::Damaged { offset: at });
    }
    Ok(at + 1)
}

// Where a journal on the bytes, which begin so, ends, or will when it is begun.
fn end_of(bytes: &[u8], lead: &Lead) -> Result<u64, JournalFault>
    requires { IsLed bytes.now lead.now.form lead.now.base lead.now.gate }
    ensures ends { IfOk result (EndsLed lead.now.form bytes.now lead.now.gate) }
    ensures fault { IfErr result (IsBadLead bytes.now) }
{
    match lead.form {
        Form::Short => Ok(30),
        Form::SlotsShort => Ok(30),
        Form::Plain => {
            let end = end_behind(&bytes[lead.gate..], lead.gate as u64)?;
            Ok(end)
        }
        Form::Slots { .. } => {
            let end = end_behind(&bytes[lead.gate..], lead.gate as u64)?;
            Ok(end)
        }
    }
}

// A file's form and its parts, and where a journal on it ends, or will when it is begun.
fn walk_over(bytes: Vec<u8>) -> Result<Walked, JournalFault>
    ensures walked { IfOk result (λ w. IsWalked w × (bytes_of w ≡ bytes.items)) }
    ensures fault { IfErr result (IsBadLead bytes.items) }
{
    let lead = lead_of(&bytes)?;
    let end = end_of(&bytes, &lead)?;
    Ok(Walked {
        bytes,
        base: lead.base,
        gate: lead.gate,
        form: lead.form,
        end,
    })
}

/// The file of a journal, with its form, the base and the records that it holds, and the place just past the gate behind them.
/// `Damaged` comes only where it holds none, with the one place at which it is damaged. It reads the file in one piece, at most
/// as much of it as a journal may have, and writes nothing.
pub fn walk<D: Disk>(alloc: Global, disk: &mut D) -> Result<Walked, JournalFault>
    ensures walked { IfOk result IsWalked }
    ensures found { IfOk result (FindsRecords (D.history disk.old)) }
    ensures ends { IfOk result (λ w. EndsAt (D.history disk.old) w.form w.end) }
    ensures form { IfOk result (λ w. HasForm (D.history disk.old) w.form) }
    ensures fault { IfErr result (FindsFault (D.history disk.old)) }
    ensures same { D.history disk.new ≡ D.history disk.old }
    ensures counts { CountsWhere (result ≡ Err JournalFault.DiskFault) (D.fault_count disk.old) (D.fault_count disk.new) }
{
    let length = disk.length()?;
    let mut bytes = vec![in alloc; 0u8; length.min(LIMIT) as usize]?;
    let read = disk.read(0, &mut bytes)?;
    bytes.truncate(read);
    let walked = walk_over(bytes)?;
    Ok(walked)
}
