//! The verdict of a check, as a line of text.
ghost use Rattle.std.specs.Prelude.{◌≡◌, ◌+◌, ◌≤◌, ◌++◌, length, take, IfOk};
ghost use Rattle.file_market.specs.Verdict.{failure_text, verdict_text};
ghost use Rattle.file_market.specs.declared.verdict_text.TheConstants.{MOST_VERDICT};
ghost use Rattle.command_text.specs.declared.put.TheConstants.{PAIR};

use crate::failing::{Failing, Failure};
use command_text::put::{PAIR, put, put_product};
use command_text::put_clash;
use command_types::Roster;
use std::alloc::{AllocError, Global};
use units_core::MOST_NAME;

// The most bytes of a verdict, its line feed included.
const MOST_VERDICT: usize = MOST_NAME + PAIR + 11;

fn put_failure(into: &mut [u8], at: usize, roster: &Roster, failure: Failure) -> usize
    requires { at + (PAIR + 6) ≤ length into.old }
    ensures end { result ≤ at + (PAIR + 6) }
    ensures text { take result into.new ≡ take at into.old ++ failure_text roster.now failure }
{
    match failure {
        Failure::Clash(clash) => put_clash(into, at, roster, clash),
        Failure::Figures => put(into, at, b"figures"),
    }
}

fn put_verdict(into: &mut [u8], roster: &Roster, failing: &Option<Failing>) -> usize
    requires { MOST_VERDICT ≤ length into.old }
    ensures end { result ≤ MOST_VERDICT }
    ensures text { take result into.new ≡ verdict_text roster.now failing.now }
{
    let Some(failing) = failing else {
        return put(into, 0, b"yes\n");
    };
    let end = put(into, 0, b"no ");
    let end = put_product(into, end, roster, failing.product.0);
    let end = put(into, end, b" ");
    let end = put_failure(into, end, roster, failing.failure);
    put(into, end, b"\n")
}

/// What a check found, as a line: `yes`, or `no` with the name of the product that fails and, by name, what clashes or
/// `figures`. The only error is want of memory.
pub fn verdict(
    alloc: Global,
    roster: &Roster,
    failing: &Option<Failing>,
) -> Result<Vec<u8>, AllocError>
    ensures { IfOk result (λ text. text.items ≡ verdict_text roster.now failing.now) }
{
    let mut line = [0; MOST_VERDICT];
    let end = put_verdict(&mut line, roster, failing);
    let mut out = Vec::new(alloc);
    out.extend_from_slice(&line[..end])?;
    Ok(out)
}
