//! Replies that may stand where a standby waits for one.
ghost use Rattle.std.specs.Prelude.{◌≡◌, ◌+◌, ◌≤◌, drop, decimal, length, IfOk, IsTrue};
ghost use Rattle.command_types.specs.Machine.{changes};
ghost use Rattle.standby_wire.specs.Gives.{seen, Gives};
ghost use Rattle.standby_wire.specs.Replies.{greeted, record_at, entry_behind, none_at, offered, same_bytes, same_entry, accepted, not_accepted, reply_to, IsFor, IsForAny};
ghost use Rattle.standby_wire.specs.Words.{word};
ghost use Rattle.units_core.specs.declared.limits.TheConstants.{MOST_JOURNAL};

use crate::refusals::refused;
use crate::reply::{Question, Reply};
use crate::stop::{NoReply, Stop};
use crate::words::{number, takes, word};
use command_types::{Entry, Spelling};
use itoa::Buffer;
use record_codec::{DecodeFault, decode};
use std::alloc::Global;
use units_core::{MOST_JOURNAL, MOST_NUMBER, Name};

// Behind `ok `: a position and the name that was greeted.
#[tactic(auto, unfolding(crate::specs::Replies::greeted))]
fn greeted(input: &[u8], at: &mut usize, name: &Name) -> Result<Reply, Stop>
    ensures gives { greeted name.now (drop at.old input.now) ≡ seen result (drop at.new input.now) }
    ensures fits { IfOk result (λ reply. IsFor reply (Question.Hello name.now)) }
{
    let _position = number(input, at, MOST_NUMBER)?;
    word(input, at, b" hello ")?;
    word(input, at, name.text())?;
    word(input, at, b"\n")?;
    Ok(Reply::Greeted)
}

// A record of so many bytes.
#[tactic(auto, using(crate::proofs::ReplyFacts::record_none, crate::proofs::ReplyFacts::record_short))]
fn record_at(alloc: Global, input: &[u8], at: &mut usize, size: u64) -> Result<Entry, NoReply>
    requires { size ≤ MOST_JOURNAL }
    ensures gives { Gives result (drop at.new input.now) (record_at size (drop at.old input.now)) }
    ensures change { IfOk result (λ entry. IsTrue (changes entry.ask.what)) }
{
    let start = *at;
    let count = size as usize;
    if count == 0 {
        return Err(NoReply::Stopped(Stop::Bad));
    }
    if start > input.len() || input.len() - start < count {
        return Err(NoReply::Stopped(Stop::More));
    }
    match decode(alloc, &input[start..start + count], Spelling::Second) {
        Ok(entry) => {
            *at = start + count;
            Ok(entry)
        }
        Err(DecodeFault::BadRecord { .. }) => Err(NoReply::Stopped(Stop::Bad)),
        Err(DecodeFault::Memory) => Err(NoReply::Memory),
    }
}

// The place behind a position.
fn place_behind(input: &[u8], at: &mut usize, position: u64) -> Result<(), Stop>
    ensures { word (decimal (position + 1)) (drop at.old input.now) ≡ seen result (drop at.new input.now) }
{
    let mut buffer = Buffer::new();
    let place = u128::from(position) + 1;
    word(input, at, buffer.format(place).as_bytes())
}

// Behind ` entry `: the place behind a position, a length, and the record of a change.
#[tactic(auto, unfolding(crate::specs::Replies::entry_behind))]
fn entry_behind(
    alloc: Global,
    input: &[u8],
    at: &mut usize,
    position: u64,
) -> Result<Reply, NoReply>
    ensures gives { Gives result (drop at.new input.now) (entry_behind position (drop at.old input.now)) }
    ensures fits { IfOk result (λ reply. IsFor reply (Question.Next position)) }
{
    place_behind(input, at, position)?;
    word(input, at, b" ")?;
    let size = number(input, at, MOST_JOURNAL)?;
    word(input, at, b"\n")?;
    let entry = record_at(alloc, input, at, size)?;
    word(input, at, b"\n")?;
    Ok(Reply::Entry(entry))
}

// There is no entry behind a position, where the reply tells it as the length.
#[tactic(auto, unfolding(crate::specs::Replies::none_at, crate::specs::Replies::nothing_more))]
fn none_at(input: &[u8], at: &mut usize, position: u64, told: u64) -> Result<Reply, Stop>
    ensures gives { none_at position told (drop at.old input.now) ≡ seen result (drop at.new input.now) }
    ensures fits { IfOk result (λ reply. IsFor reply (Question.Next position)) }
{
    if told != position {
        return Err(Stop::Bad);
    }
    word(input, at, b" none\n")?;
    Ok(Reply::Nothing)
}

// Behind `ok `: a position, and an entry or none.
#[tactic(auto, unfolding(crate::specs::Replies::offered))]
fn offered(alloc: Global, input: &[u8], at: &mut usize, position: u64) -> Result<Reply, NoReply>
    ensures gives { Gives result (drop at.new input.now) (offered position (drop at.old input.now)) }
    ensures fits { IfOk result (λ reply. IsFor reply (Question.Next position)) }
{
    let told = number(input, at, MOST_NUMBER)?;
    if takes(input, at, b" entry ")? {
        return entry_behind(alloc, input, at, position);
    }
    Ok(none_at(input, at, position, told)?)
}

// A length of so many bytes.
fn length_told(input: &[u8], at: &mut usize, bytes: &[u8]) -> Result<(), Stop>
    ensures { word (decimal (length bytes.now)) (drop at.old input.now) ≡ seen result (drop at.new input.now) }
{
    let mut buffer = Buffer::new();
    word(input, at, buffer.format(bytes.len() as u64).as_bytes())
}

// These bytes, which are judged when as many are there.
#[tactic(auto, using(crate::proofs::ReplyFacts::same_short, crate::proofs::ReplyFacts::same_long))]
fn same_bytes(input: &[u8], at: &mut usize, bytes: &[u8]) -> Result<(), Stop>
    ensures { same_bytes bytes.now (drop at.old input.now) ≡ seen result (drop at.new input.now) }
{
    let left = input.len().saturating_sub(*at);
    if left < bytes.len() {
        return Err(Stop::More);
    }
    word(input, at, bytes)
}

// Behind `ok `: a position, and the entry behind one, which has these bytes.
#[tactic(auto, unfolding(crate::specs::Replies::same_entry))]
fn same_entry(input: &[u8], at: &mut usize, position: u64, bytes: &[u8]) -> Result<Reply, Stop>
    ensures gives { same_entry position bytes.now (drop at.old input.now) ≡ seen result (drop at.new input.now) }
    ensures fits { IfOk result (λ reply. IsFor reply (Question.Again position bytes.now)) }
{
    let _told = number(input, at, MOST_NUMBER)?;
    word(input, at, b" entry ")?;
    place_behind(input, at, position)?;
    word(input, at, b" ")?;
    length_told(input, at, bytes)?;
    word(input, at, b"\n")?;
    same_bytes(input, at, bytes)?;
    word(input, at, b"\n")?;
    Ok(Reply::Same)
}

#[tactic(auto, unfolding(crate::specs::Replies::accepted))]
fn accepted(
    alloc: Global,
    input: &[u8],
    at: &mut usize,
    question: &Question,
) -> Result<Reply, NoReply>
    ensures gives { Gives result (drop at.new input.now) (accepted question.now (drop at.old input.now)) }
    ensures fits { IfOk result (λ reply. IsFor reply question.now) }
{
    match question {
        Question::Hello { name } => Ok(greeted(input, at, name)?),
        Question::Next { position } => offered(alloc, input, at, *position),
        Question::Again { position, bytes } => Ok(same_entry(input, at, *position, bytes.rows())?),
    }
}

#[tactic(auto, unfolding(crate::specs::Replies::not_accepted, crate::specs::Replies::refused_reply))]
fn not_accepted(input: &[u8], at: &mut usize) -> Result<Reply, Stop>
    ensures gives { not_accepted (drop at.old input.now) ≡ seen result (drop at.new input.now) }
    ensures fits { IfOk result IsForAny }
{
    word(input, at, b"no ")?;
    let number = refused(input, at)?;
    Ok(Reply::Refused { number })
}

/// What is read where the reply to a question is due. The place is then behind it; where no reply is read, it may be anywhere.
#[tactic(auto, unfolding(crate::specs::Replies::reply_to))]
pub fn reply_to(
    alloc: Global,
    input: &[u8],
    at: &mut usize,
    question: &Question,
) -> Result<Reply, NoReply>
    ensures gives { Gives result (drop at.new input.now) (reply_to question.now (drop at.old input.now)) }
    ensures fits { IfOk result (λ reply. IsFor reply question.now) }
{
    if takes(input, at, b"ok ")? {
        return accepted(alloc, input, at, question);
    }
    Ok(not_accepted(input, at)?)
}
