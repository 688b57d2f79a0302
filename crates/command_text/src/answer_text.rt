//! What accepted commands are told: a word and its numbers.

ghost use Rattle.std.specs.Prelude.{◌≡◌, ◌+◌, ◌≤◌, ◌++◌, length, take, codes, decimal};
ghost use Rattle.std.specs.Fmt.{signed_decimal};
ghost use Rattle.command_types.specs.Roster.{Rows};
ghost use Rattle.command_types.specs.Text.{answer_text, numbers_text, proof_head_text};

use crate::put::{put, put_large, put_mode, put_numbers, put_signed, put_told};
use command_types::{Answer, ProofHead};

// What a member owes, what it is owed, and the difference.
fn put_own(into: &mut [u8], at: usize, out: u64, owed: u64, net: i64) -> usize
    requires { at + 80 ≤ length into.old }
    ensures end { result ≤ at + 80 }
    ensures text { take result into.new ≡ take at into.old ++ codes " nets" ++ numbers_text out owed ++ codes " " ++ signed_decimal net }
{
    let end = put(into, at, b" nets");
    let end = put_numbers(into, end, out, owed);
    let end = put(into, end, b" ");
    put_signed(into, end, net)
}

// Two numbers behind a word.
fn put_two(into: &mut [u8], at: usize, word: &[u8], first: u64, second: u64) -> usize
    requires { at + length word.now + 42 ≤ length into.old }
    ensures end { result ≤ at + length word.now + 42 }
    ensures text { take result into.new ≡ take at into.old ++ word.now ++ numbers_text first second }
{
    let end = put(into, at, word);
    put_numbers(into, end, first, second)
}

// Two numbers behind a word, and the gross notional before and after.
fn put_proposed(
    into: &mut [u8],
    at: usize,
    cycle: u64,
    version: u64,
    before: u128,
    after: u128,
) -> usize
    requires { at + 140 ≤ length into.old }
    ensures end { result ≤ at + 140 }
    ensures text { take result into.new ≡ take at into.old ++ codes " proposed" ++ numbers_text cycle version ++ numbers_text before after }
{
    let end = put_two(into, at, b" proposed", cycle, version);
    let end = put(into, end, b" ");
    let end = put_large(into, end, before);
    let end = put(into, end, b" ");
    put_large(into, end, after)
}

// The counts of an execution.
fn put_executed(
    into: &mut [u8],
    at: usize,
    cycle: u64,
    version: u64,
    ended: u64,
    cut: u64,
    made: u64,
) -> usize
    requires { at + 130 ≤ length into.old }
    ensures end { result ≤ at + 130 }
    ensures text { take result into.new ≡ take at into.old ++ codes " executed" ++ numbers_text cycle version ++ numbers_text ended cut ++ codes " " ++ decimal made }
{
    let end = put_two(into, at, b" executed", cycle, version);
    let end = put_numbers(into, end, ended, cut);
    put_told(into, end, b" ", made)
}

// Three numbers behind a word.
fn put_three(into: &mut [u8], at: usize, word: &[u8], first: u64, second: u64, third: u64) -> usize
    requires { at + length word.now + 63 ≤ length into.old }
    ensures end { result ≤ at + length word.now + 63 }
    ensures text { take result into.new ≡ take at into.old ++ word.now ++ numbers_text first second ++ codes " " ++ decimal third }
{
    let end = put_two(into, at, word, first, second);
    put_told(into, end, b" ", third)
}

// Which proposal a member is told of, and in how many lines.
fn put_proof(into: &mut [u8], at: usize, head: &ProofHead, count: u64) -> usize
    requires { at + 114 ≤ length into.old }
    ensures end { result ≤ at + 114 }
    ensures text { take result into.new ≡ take at into.old ++ proof_head_text head.now count }
{
    let end = put_two(into, at, b" proof", head.cycle, head.version);
    let end = put(into, end, b" ");
    let end = put(into, end, &head.day.text());
    let end = put(into, end, b" ");
    let end = put_mode(into, end, head.mode);
    put_numbers(into, end, head.begun, count)
}

// The figures of a product.
fn put_market(
    into: &mut [u8],
    at: usize,
    gross: u64,
    floor_m: u64,
    excess: u64,
    bilateral: u64,
) -> usize
    requires { at + 100 ≤ length into.old }
    ensures end { result ≤ at + 100 }
    ensures text { take result into.new ≡ take at into.old ++ codes " market" ++ numbers_text gross floor_m ++ numbers_text excess bilateral }
{
    let end = put_two(into, at, b" market", gross, floor_m);
    put_numbers(into, end, excess, bilateral)
}

/// What an accepted command is told behind the position, of at most 200 bytes. No place of the roster is named.
pub(crate) fn put_answer(into: &mut [u8], at: usize, answer: &Answer) -> usize
    requires { at + 200 ≤ length into.old }
    ensures end { result ≤ at + 200 }
    ensures text { (rows : Rows) → take result into.new ≡ take at into.old ++ answer_text rows answer.now }
{
    match answer {
        Answer::Hello { name } => {
            let end = put(into, at, b" hello ");
            put(into, end, name.text())
        }
        Answer::Traded { trade } => put_told(into, at, b" trade ", *trade),
        Answer::Affirmed { trade } => put_told(into, at, b" live ", *trade),
        Answer::Marked { trade } => put_told(into, at, b" ending ", *trade),
        Answer::Ended { trade } => put_told(into, at, b" ended ", *trade),
        Answer::Held { trade } => put_told(into, at, b" held ", *trade),
        Answer::Freed { trade } => put_told(into, at, b" freed ", *trade),
        Answer::Tolerance => put(into, at, b" tol"),
        Answer::Own {
            out,
            into: owed,
            net,
        } => put_own(into, at, *out, *owed, *net),
        Answer::Market {
            gross,
            floor_m,
            excess,
            bilateral,
        } => put_market(into, at, *gross, *floor_m, *excess, *bilateral),
        Answer::Statement { rows } => put_told(into, at, b" statement ", rows.rows().len() as u64),
        Answer::Frozen { cycle, trades } => put_two(into, at, b" frozen", *cycle, *trades),
        Answer::Begun { cycle, version } => put_two(into, at, b" begun", *cycle, *version),
        Answer::LimitRows { rows } => put_told(into, at, b" limits ", rows.rows().len() as u64),
        Answer::Noted { size } => put_told(into, at, b" noted ", u64::from(*size)),
        Answer::Proposed {
            cycle,
            version,
            before,
            after,
        } => put_proposed(into, at, *cycle, *version, *before, *after),
        Answer::Nothing { cycle, version } => put_two(into, at, b" nothing", *cycle, *version),
        Answer::PlanRows {
            cycle,
            version,
            rows,
        } => put_three(
            into,
            at,
            b" plan",
            *cycle,
            *version,
            rows.rows().len() as u64,
        ),
        Answer::ProofRows { head, rows } => put_proof(into, at, head, rows.rows().len() as u64),
        Answer::Accepted {
            cycle,
            version,
            left,
        } => put_three(into, at, b" accepted", *cycle, *version, u64::from(*left)),
        Answer::Executed {
            cycle,
            version,
            ended,
            cut,
            made,
        } => put_executed(into, at, *cycle, *version, *ended, *cut, *made),
        Answer::Declined { cycle, version } => put_two(into, at, b" declined", *cycle, *version),
        Answer::Cancelled { cycle } => put_told(into, at, b" cancelled ", *cycle),
        Answer::Bye => put(into, at, b" bye"),
        Answer::NoNext => put(into, at, b" none"),
        Answer::EntryBytes { position, bytes } => {
            put_two(into, at, b" entry", *position, bytes.rows().len() as u64)
        }
        Answer::Problems(_) | Answer::No(_) => at,
    }
}
