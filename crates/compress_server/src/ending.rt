//! How a call of the program ends: its status, and the line that tells it on the errors.
//!
//!     a form's own end -> `End` -> the status, and a line
//!
//! Each form has an end of its own in its file, with the map to `End`.

ghost use Rattle.std.specs.Prelude.{◌≡◌, IfOk, OnErr};
ghost use Rattle.compress_server.specs.Seen.{output_by};
ghost use Rattle.compress_server.specs.Statuses.{load_end, journal_end};
ghost use Rattle.compress_server.specs.Telling.{IsReported, IsTold, TellsEnd};

use crate::faults::{broken_line, damage_line, fault_line, full_line, refused_line};
use crate::load::{FileRole, LoadFault};
use crate::obstacles::obstacle_line;
use command_types::FileFault;
use journal_core::JournalFault;
use outside::{Sink, write_all};
use period_roll::Cause;
use std::alloc::{AllocError, Global};

/// What keeps the market of a journal from going on over a new roster.
#[derive(Clone, Copy)]
pub enum Obstacle {
    /// A cause of the roll.
    Market(Cause),
    /// The position, or the number of the cycle or of its version, is above 10^18.
    Misfit,
    /// The new journal would not end before its most.
    TooLong,
}

/// The end of a call, one for each status.
#[derive(Clone, Copy)]
pub enum End {
    /// All was done and written; a check said yes.
    Done,
    /// A check said no.
    No,
    /// The words are out of form.
    BadWords,
    /// The file in this role has this fault.
    Faulty(FileRole, FileFault),
    /// The input failed.
    SourceFault,
    /// The output failed.
    SinkFault,
    /// The disk failed.
    DiskFault,
    /// The journal stands for no legal history; it is damaged at this place.
    Damaged(u64),
    /// The session took as many bytes as one may.
    Limit,
    /// The memory that was needed was not to be had.
    Memory,
    /// The listener or one of its doors failed.
    ListenerFault,
    /// The files failed.
    FilesFault,
    /// A standby's primary refused, with this number.
    PeerRefused(u8),
    /// A standby's primary said what may not stand at this offset of the input.
    PeerBroken(u64),
    /// A standby's journal, which has so many bytes, has no room for an entry.
    JournalFull(u64),
    /// The market of the journal can't go on over the new roster.
    Unrolled(Obstacle),
}

impl From<LoadFault> for End {
    ghost from_gives = { λ fault end. end ≡ load_end fault };

    fn from(fault: LoadFault) -> End {
        match fault {
            LoadFault::Faulty(role, fault) => End::Faulty(role, fault),
            LoadFault::Files(_) => End::FilesFault,
            LoadFault::Memory => End::Memory,
        }
    }
}

impl From<JournalFault> for End {
    ghost from_gives = { λ fault end. end ≡ journal_end fault };

    fn from(fault: JournalFault) -> End {
        match fault {
            JournalFault::Damaged { offset } => End::Damaged(offset),
            JournalFault::DiskFault => End::DiskFault,
            JournalFault::Memory => End::Memory,
        }
    }
}

// Writes a line, and answers the status. A fault of the errors changes nothing.
fn tell<E: Sink>(errors: &mut E, status: u8, line: &[u8]) -> u8
    ensures status { result ≡ status }
    ensures line { IsReported (output_by E.Sink errors.old) (output_by E.Sink errors.new) line.now }
{
    let _ = write_all(errors, line);
    status
}

// Writes a line that was made, and answers the status; where there was no memory for the line, that is told.
fn tell_made<E: Sink>(errors: &mut E, status: u8, line: Result<Vec<u8>, AllocError>) -> u8
    ensures told { IfOk line (λ bytes. (result ≡ status) × IsReported (output_by E.Sink errors.old) (output_by E.Sink errors.new) bytes.items) }
    ensures memory { OnErr line (IsTold (output_by E.Sink errors.old) (output_by E.Sink errors.new) End.Memory result) }
{
    match line {
        Ok(line) => tell(errors, status, &line),
        Err(_) => tell(errors, 9, b"memory\n"),
    }
}

/// Writes the line of an end, if it has one, and answers its status. A fault of the errors changes nothing. Where there is no
/// memory for a line with a fault, a number or a cause in it, that is told.
pub fn tell_end<E: Sink>(alloc: Global, errors: &mut E, end: End) -> u8
    ensures { TellsEnd (output_by E.Sink errors.old) (output_by E.Sink errors.new) end result }
{
    match end {
        End::Done => 0,
        End::No => 1,
        End::BadWords => tell(errors, 2, b"bad words\n"),
        End::Faulty(role, fault) => tell_made(errors, 3, fault_line(alloc, role, fault)),
        End::SourceFault => tell(errors, 4, b"source fault\n"),
        End::SinkFault => tell(errors, 5, b"sink fault\n"),
        End::DiskFault => tell(errors, 6, b"disk fault\n"),
        End::Damaged(place) => tell_made(errors, 7, damage_line(alloc, place)),
        End::Limit => tell(errors, 8, b"session limit\n"),
        End::Memory => tell(errors, 9, b"memory\n"),
        End::ListenerFault => tell(errors, 10, b"listener fault\n"),
        End::FilesFault => tell(errors, 11, b"file fault\n"),
        End::PeerRefused(number) => tell_made(errors, 12, refused_line(alloc, number)),
        End::PeerBroken(at) => tell_made(errors, 13, broken_line(alloc, at)),
        End::JournalFull(size) => tell_made(errors, 14, full_line(alloc, size)),
        End::Unrolled(obstacle) => tell_made(errors, 15, obstacle_line(alloc, obstacle)),
    }
}
