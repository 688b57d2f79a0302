//! Writing a summary's text.
ghost use Rattle.std.specs.Prelude.{◌≡◌, IfOk, length};
ghost use Rattle.dual_certificate.specs.SummaryText.{summary_text};

use crate::proposal_writer::{put_head, put_number};
use command_types::Roster;
use network_laws::{Network, Solution};
use std::alloc::{AllocError, Global};

/// The text of a summary: for each product of the roster the figures of its original network, and the gross of its
/// solution's. The only error is want of memory.
pub fn write_summary(
    alloc: Global,
    roster: &Roster,
    old: &[Network],
    solutions: &[Solution],
) -> Result<Vec<u8>, AllocError>
    requires networks { length old.now ≡ length roster.now.products }
    requires solutions { length solutions.now ≡ length roster.now.products }
    ensures { IfOk result (λ text. text.items ≡ summary_text roster.now old.now solutions.now) }
{
    let mut out = Vec::new(alloc);
    let products = roster.products().len();
    for product in 0..products {
        let new = solutions[product].network();
        put_head(&mut out, roster, product, &old[product], new)?;
    }
    put_number(&mut out, b"end ", products as u64)?;
    out.extend_from_slice(b"\n")?;
    Ok(out)
}
