//! The text of a proposal over five dealers and one product, from outside.

ghost use Rattle.std.specs.Prelude.{◌≡◌, IfOk, length};

use crate::files::FIVE_DEALERS;
use crate::networks::{Sale, has_rows, network_of, so};
use command_types::{FileFault, Roster};
use dual_certificate::{ProposalPart, join_parts, read_proposal, write_part};
use network_laws::{Network, Solution};
use std::alloc::{AllocError, Global};
use std::test::Fail;
use trade_file::read_roster;

const TEXT: &str =
    "product P 20 10 10 20\nrow A B 5\nrow D C 5\npot A 1\npot B 0\npot C 0\npot D 1\npot E 0\nbound 10\nend 1\n";

// A and D sell to E, and E to B and C.
const ORIGINAL: [Sale; 4] = [(0, 4, 5), (3, 4, 5), (4, 1, 5), (4, 2, 5)];

// A sells to B, and D to C.
const LEAST: [Sale; 2] = [(0, 1, 5), (3, 2, 5)];

fn least(alloc: Global) -> Result<Solution, Fail>
    ensures { IfOk result (λ solution. solution.network.members ≡ 5) }
{
    let potentials = Vec::from_array(alloc, [1, 0, 0, 1, 0])?;
    let network = network_of(alloc, 5, &LEAST)?;
    Ok(Solution::new(network, potentials))
}

// The text over one product.
fn written(
    alloc: Global,
    roster: &Roster,
    old: &Network,
    new: &Solution,
) -> Result<Vec<u8>, AllocError>
    requires products { length roster.now.products ≡ 1 }
    requires solved { new.now.network.members ≡ length roster.now.members }
{
    let mut parts = Vec::new(alloc);
    parts.push(write_part(alloc, roster, 0, old, new)?)?;
    join_parts(alloc, &parts)
}

/// That the proposal of the least network is this text.
fn is_written(alloc: Global, text: &str) -> Result<(), Fail> {
    let roster = read_roster(alloc, FIVE_DEALERS.as_bytes())?;
    let old = network_of(alloc, 5, &ORIGINAL)?;
    let new = least(alloc)?;
    if roster.products().len() != 1 || roster.members().len() != 5 {
        return Err(Fail::new("the roster is otherwise"));
    }
    let found = written(alloc, &roster, &old, &new)?;
    so(found.as_slice() == text.as_bytes(), "the text is otherwise")
}

#[test]
fn a_least_network_of_five_dealers_is_written(rt: HostRuntime) -> Result<(), Fail> {
    is_written(rt.alloc(), TEXT)
}

/// Whether a part has these figures, the least network and its potentials.
fn is_least(part: &ProposalPart, figures: [u64; 5]) -> bool {
    [
        part.gross,
        part.least,
        part.floor_m,
        part.bilateral,
        part.bound,
    ] == figures
        && part.solution.network().members() == 5
        && has_rows(part.solution.network(), &LEAST)
        && part.solution.potentials() == [1, 0, 0, 1, 0].as_slice()
}

/// That a text is read to the least network alone, with these figures.
fn is_read(alloc: Global, text: &str, figures: [u64; 5]) -> Result<(), Fail> {
    let roster = read_roster(alloc, FIVE_DEALERS.as_bytes())?;
    let parts = read_proposal(alloc, text.as_bytes(), &roster)?;
    let read = parts.len() == 1 && is_least(&parts[0], figures);
    so(read, "it is read otherwise")
}

#[test]
fn it_reads_to_its_network_potentials_and_figures(rt: HostRuntime) -> Result<(), Fail> {
    is_read(rt.alloc(), TEXT, [20, 10, 10, 20, 10])
}

/// Texts, and the first line of each that cannot stand.
const BAD: &[(&str, u64)] = &[
    // Without an end.
    (
        "product P 20 10 10 20\nrow A B 5\nrow D C 5\npot A 1\npot B 0\npot C 0\npot D 1\npot E 0\nbound 10\n",
        10,
    ),
    // Rows out of order, and a potential twice.
    ("product P 20 10 10 20\nrow D C 5\nrow A B 5\npot A 1\n", 3),
    ("product P 20 10 10 20\nrow A B 5\npot A 1\npot A 1\n", 4),
    // A line behind the end, and one that is unfinished.
    (
        "product P 0 0 0 0\npot A 0\npot B 0\npot C 0\npot D 0\npot E 0\nbound 0\nend 1\n\n",
        9,
    ),
    (
        "product P 0 0 0 0\npot A 0\npot B 0\npot C 0\npot D 0\npot E 0\nbound 0\nend 1",
        8,
    ),
    // A row behind a potential.
    ("product P 5 5 5 5\npot A 0\nrow A B 5\n", 3),
];

fn all_are_bad(alloc: Global) -> Result<(), Fail> {
    let roster = read_roster(alloc, FIVE_DEALERS.as_bytes())?;
    for (text, row) in BAD {
        let told = match read_proposal(alloc, text.as_bytes(), &roster) {
            Err(FileFault::BadLine { row: at }) => at == *row,
            _ => false,
        };
        so(told, "another line is told")?;
    }
    Ok(())
}

#[test]
fn the_first_line_that_cannot_stand_is_told(rt: HostRuntime) -> Result<(), Fail> {
    all_are_bad(rt.alloc())
}
