//! A change, made and kept.
//!
//! ```text
//!   Ready of decide           bytes          room for them          frame                on the disk
//!        |                      |                  |                   |                       |
//!        +-- encode (memory) ---+-- make_room -----+-- Frame::of ------+-- append (fault) -----+-- commit, push: can't fail
//!        |   all stays              (memory)           (memory)        |   Unstored::Failed        the change is made
//!        +-- of an ACCEPT: encode_short ---------------- fill ---------+
//! ```
//!
//! Before `append` nothing has changed, and after it nothing can fail. An ACCEPT takes no memory: its room was made before.
ghost use Rattle.std.specs.Prelude.{◌≡◌, ◌≢◌, ◌≤◌, ◌<◌, ◌+◌, ◌-◌, ◌^◌, [], ◌∷◌, length, take, true, is_some, All, IsTrue, IfOk, IfErr, IfSome, OnOk, OnErr, Err};
ghost use Rattle.network_laws.specs.Solutions.{IsSolution};
ghost use Rattle.command_types.specs.Machine.{answer_to, state_after, changes};
ghost use Rattle.command_types.specs.History.{longer, solutions_posted};
ghost use Rattle.command_types.specs.Sizes.{record_size, frame_size, journal_limit};
ghost use Rattle.command_types.specs.declared.spelling.Spelling.TheVariants.{Second};
ghost use Rattle.command_types.specs.Spelling.{Spells, posted, most_solutions};
ghost use Rattle.command_types.specs.Told.{is_accept};
ghost use Rattle.cycle_states.specs.Decision.{MayCommit};
ghost use Rattle.cycle_states.specs.Machine.{IsYoung};
ghost use Rattle.cycle_states.specs.Replayed.{IsReplayed};
ghost use Rattle.outside.specs.Faults.{Rose};
ghost use Rattle.journal_core.specs.Journal.{disk_of, form_of, size_of, is_sound, IsReady as IsReadyAt};
ghost use Rattle.house.specs.Chronicle.{HasVoteRoom};
ghost use Rattle.house.specs.House.{now_of};
ghost use Rattle.house.specs.Storing.{StoresMore, LeavesEither, LeavesYet};
ghost use Rattle.house.specs.declared.storing.Unstored.TheVariants.{Memory};
ghost use Rattle.house.specs.Unstored.{Tells};

use crate::chronicle::Chronicle;
use command_types::{Answer, Entry, What};
use cycle_states::{Machine, Ready};
use journal_core::{Frame, Journal};
use outside::Disk;
use record_codec::{encode, encode_short};
use std::alloc::{AllocError, Global};

/// Why a change was not made.
#[derive(Drop)]
pub(crate) enum Unstored {
    Memory,
    /// The disk failed on this change's record.
    Failed(Entry),
}

impl From<AllocError> for Unstored {
    ghost from_gives = { λ _ e. e ≡ Memory };

    fn from(_: AllocError) -> Unstored {
        Unstored::Memory
    }
}

// A change's record.
pub(crate) fn record_of(alloc: Global, entry: &Entry) -> Result<Vec<u8>, AllocError>
    requires change { IsTrue (changes entry.now.ask.what) }
    requires party { IsTrue (is_some entry.now.ask.by) }
    requires few { posted entry.now.ask.what ≤ most_solutions }
    requires small { record_size entry.now.ask < 2 ^ 32 }
    ensures spells { IfOk result (λ bytes. Spells Second bytes.items entry.now) }
    ensures size { IfOk result (λ bytes. length bytes.items ≡ record_size entry.now.ask) }
    ensures small { IfOk result (λ bytes. length bytes.items < 2 ^ 32) }
{
    let bytes = encode(alloc, entry)?;
    Ok(bytes)
}

// Writes an ACCEPT's record to the front of `into`, and gives how many bytes it has; of any other change nothing. It takes no
// memory.
fn short_record(entry: &Entry, into: &mut [u8; 64]) -> Option<usize>
    requires party { IsTrue (is_some entry.now.ask.by) }
    ensures vote { is_some result ≡ is_accept entry.now.ask.what }
    ensures spells { IfSome result (λ end. Spells Second (take end into.new) entry.now) }
    ensures size { IfSome result (λ end. length (take end into.new) ≡ record_size entry.now.ask) }
    ensures short { IfSome result (λ end. end ≤ 46) }
{
    let What::Accept { cycle, version } = entry.ask.what else {
        return None;
    };
    let Some(by) = &entry.ask.by else {
        unreachable!()
    };
    let moment = entry.ask.moment;
    let end = encode_short(entry.seat, by, cycle, version, moment, into);
    Some(end)
}

// A change's record, and its frame.
#[derive(Clone, Copy)]
struct Record<'a> {
    bytes: &'a [u8],
    frame: &'a Frame,
}

// Makes a change that is ready, of which this is the record, and for which and for the votes that are missing behind it there is
// room. It takes no memory.
fn write<D: Disk>(
    machine: &mut Machine,
    past: &mut Chronicle,
    journal: &mut Journal<D>,
    written: Record,
    ready: Ready,
) -> Result<Answer, Unstored>
    requires may { MayCommit machine.old ready }
    requires young { IsYoung machine.old.state.cycle }
    requires ready { IsReadyAt (D.history (disk_of journal.old)) (form_of journal.old) (size_of journal.old) }
    requires sound { is_sound journal.old ≡ true }
    requires fits { size_of journal.old + frame_size ready.entry.ask ≤ journal_limit }
    requires short { length past.old.history.entries + 1 < 2 ^ 62 }
    requires spells { Spells Second written.bytes.now ready.entry }
    requires frame { written.frame.now ≡ written.bytes.now }
    requires size { length written.bytes.now ≡ record_size ready.entry.ask }
    requires small { length written.bytes.now < 2 ^ 32 }
    requires room { 5 + length written.bytes.now ≤ past.old.room }
    requires votes { HasVoteRoom (longer past.old.history (ready.entry ∷ [])) (past.old.room - (5 + length written.bytes.now)) }
    ensures answer { IfOk result (λ answer. answer ≡ answer_to machine.old.state ready.entry.ask) }
    ensures state { OnOk result (machine.new.state ≡ state_after machine.old.state ready.entry.ask) }
    ensures past { OnOk result (past.new.history ≡ longer past.old.history (ready.entry ∷ [])) }
    ensures solutions { OnOk result (All IsSolution (solutions_posted ready.entry.ask.what)) }
    ensures size { OnOk result (size_of journal.new ≡ size_of journal.old + frame_size ready.entry.ask) }
    ensures stored { OnOk result (StoresMore (D.history (disk_of journal.old)) journal.old (D.history (disk_of journal.new)) journal.new past.old.history ready.entry) }
    ensures sound { OnOk result (is_sound journal.new ≡ true) }
    ensures any_moment { LeavesEither (D.history (disk_of journal.old)) journal.old (D.history (disk_of journal.new)) past.old.history ready.entry }
    ensures yet { LeavesYet (D.history (disk_of journal.old)) journal.old (D.history (disk_of journal.new)) past.old.history }
    ensures same_state { OnErr result (machine.new.state ≡ machine.old.state) }
    ensures same_past { OnErr result (past.new.history ≡ past.old.history) }
    ensures same_size { OnErr result (size_of journal.new ≡ size_of journal.old) }
    ensures memory { result ≢ Err Memory }
    ensures never_falls { D.fault_count (disk_of journal.old) ≤ D.fault_count (disk_of journal.new) }
    ensures failed { IfErr result (Tells ready.entry (Rose (D.fault_count (disk_of journal.old)) (D.fault_count (disk_of journal.new)) × All IsSolution (solutions_posted ready.entry.ask.what))) }
{
    match journal.append(written.frame) {
        Ok(()) => {
            let (entry, answer) = machine.commit(ready);
            past.push(&entry, written.bytes);
            Ok(answer)
        }
        Err(_) => Err(Unstored::Failed(ready.into_entry())),
    }
}

/// Makes a change that is ready and fits into the journal, and puts it last, once its record is on the disk. What a crash at
/// any moment leaves stands for the entries from before, or for these and the one more. Where there is no memory, which never
/// comes of an ACCEPT, all stays; where the disk fails, machine and history do.
pub(crate) fn store<D: Disk>(
    machine: &mut Machine,
    past: &mut Chronicle,
    journal: &mut Journal<D>,
    short: &mut Frame,
    ready: Ready,
) -> Result<Answer, Unstored>
    requires may { MayCommit machine.old ready }
    requires young { IsYoung machine.old.state.cycle }
    requires ready { IsReadyAt (D.history (disk_of journal.old)) (form_of journal.old) (size_of journal.old) }
    requires sound { is_sound journal.old ≡ true }
    requires fits { size_of journal.old + frame_size ready.entry.ask ≤ journal_limit }
    requires short { length past.old.history.entries + 1 < 2 ^ 62 }
    requires replayed { IsReplayed machine.old.state past.old.history }
    ensures answer { IfOk result (λ answer. answer ≡ answer_to machine.old.state ready.entry.ask) }
    ensures state { OnOk result (machine.new.state ≡ state_after machine.old.state ready.entry.ask) }
    ensures past { OnOk result (past.new.history ≡ longer past.old.history (ready.entry ∷ [])) }
    ensures solutions { OnOk result (All IsSolution (solutions_posted ready.entry.ask.what)) }
    ensures size { OnOk result (size_of journal.new ≡ size_of journal.old + frame_size ready.entry.ask) }
    ensures stored { OnOk result (StoresMore (D.history (disk_of journal.old)) journal.old (D.history (disk_of journal.new)) journal.new past.old.history ready.entry) }
    ensures sound { OnOk result (is_sound journal.new ≡ true) }
    ensures any_moment { LeavesEither (D.history (disk_of journal.old)) journal.old (D.history (disk_of journal.new)) past.old.history ready.entry }
    ensures yet { LeavesYet (D.history (disk_of journal.old)) journal.old (D.history (disk_of journal.new)) past.old.history }
    ensures same_state { OnErr result (machine.new.state ≡ machine.old.state) }
    ensures same_past { OnErr result (past.new.history ≡ past.old.history) }
    ensures same_size { OnErr result (size_of journal.new ≡ size_of journal.old) }
    ensures same_journal { result ≡ Err Memory → now_of journal.new ≡ now_of journal.old }
    ensures same_disk { result ≡ Err Memory → (D.history (disk_of journal.new) ≡ D.history (disk_of journal.old)) × (D.fault_count (disk_of journal.new) ≡ D.fault_count (disk_of journal.old)) }
    ensures vote { IsTrue (is_accept ready.entry.ask.what) → result ≢ Err Memory }
    ensures never_falls { D.fault_count (disk_of journal.old) ≤ D.fault_count (disk_of journal.new) }
    ensures failed { IfErr result (Tells ready.entry (Rose (D.fault_count (disk_of journal.old)) (D.fault_count (disk_of journal.new)) × All IsSolution (solutions_posted ready.entry.ask.what))) }
{
    past.has_vote_room();
    let mut text = [0; 64];
    if let Some(end) = short_record(ready.entry(), &mut text) {
        let bytes = &text[..end];
        short.fill(bytes);
        let frame = &*short;
        return write(machine, past, journal, Record { bytes, frame }, ready);
    }
    let bytes = record_of(past.allocator(), ready.entry())?;
    past.make_room(bytes.len())?;
    let frame = Frame::of(past.allocator(), &bytes)?;
    let written = Record {
        bytes: &bytes,
        frame: &frame,
    };
    write(machine, past, journal, written, ready)
}
