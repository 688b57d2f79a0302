//! Posts of one and of two solutions, both ways and with one fault each.

use crate::bad_records::is_told;
use crate::disks::with;
use command_types::{Entry, What};
use network_laws::Network;
use record_codec::{Spelling, decode, encode};
use std::alloc::Global;
use std::test::Fail;
use units_core::MOST_GROSS;

// POST 1 2 by OPS with one solution: three members, rows (0, 1, 5) and (1, 2, 7), potentials 1, 0 and -1.
const POST: [u8; 69] = [
    0, 0, 0, 0, 3, 0x4f, 0x50, 0x53, 9, 1, 0, 0, 0, 0, 0, 0, 0, 2, 0, 0, 0, 0, 0, 0, 0, 1, 0, 3, 0,
    2, 0, 0, 0, 0, 0, 1, 0, 5, 0, 0, 0, 0, 0, 0, 0, 1, 0, 2, 0, 7, 0, 0, 0, 0, 0, 0, 0, 1, 0, 0, 0,
    0, 0, 0, 0, 0xff, 0xff, 0xff, 0xff,
];

// POST 1 2 by OPS with two solutions: two members, the row (0, 1, 5), potentials 1 and 0; three members, the rows
// (0, 1, 3) and (2, 0, 4), which begin at bytes 59 and 71, potentials 0.
const TWO: [u8; 95] = [
    0, 0, 0, 0, 3, 0x4f, 0x50, 0x53, 9, 1, 0, 0, 0, 0, 0, 0, 0, 2, 0, 0, 0, 0, 0, 0, 0, 2, 0, 2, 0,
    1, 0, 0, 0, 0, 0, 1, 0, 5, 0, 0, 0, 0, 0, 0, 0, 1, 0, 0, 0, 0, 0, 0, 0, 3, 0, 2, 0, 0, 0, 0, 0,
    1, 0, 3, 0, 0, 0, 0, 0, 0, 0, 2, 0, 0, 0, 4, 0, 0, 0, 0, 0, 0, 0, 0, 0, 0, 0, 0, 0, 0, 0, 0, 0,
    0, 0,
];

/// One solution of a post: its place, its members, how many rows it has, and its potentials.
type Posted<'a> = (usize, u16, usize, &'a [i32]);

/// Whether a network has these rows.
fn has_rows(network: &Network, rows: &[(u16, u16, u64)]) -> bool {
    for (seller, buyer, amount) in rows {
        if *seller >= network.members()
            || *buyer >= network.members()
            || network.amount(*seller, *buyer) != *amount
        {
            return false;
        }
    }
    true
}

/// Whether so many solutions are posted for this cycle and version, of which one is this, with these rows.
fn is_posted(what: &What, count: usize, posted: Posted<'_>, rows: &[(u16, u16, u64)]) -> bool {
    let What::Post {
        cycle,
        version,
        solutions,
    } = what
    else {
        return false;
    };
    let Some(solution) = solutions.rows().get(posted.0) else {
        return false;
    };
    let network = solution.network();
    let is_numbered = (*cycle, *version) == (1, 2) && solutions.rows().len() == count;
    let is_sized = network.members() == posted.1 && network.rows().len() == posted.2;
    let has_potentials = solution.potentials() == posted.3;
    is_numbered && is_sized && has_potentials && has_rows(network, rows)
}

/// Whether these bytes do so.
fn posts(
    alloc: Global,
    bytes: &[u8],
    count: usize,
    posted: Posted<'_>,
    rows: &[(u16, u16, u64)],
) -> Result<bool, Fail> {
    let entry = decode(alloc, bytes, Spelling::First)?;
    Ok(is_posted(&entry.ask.what, count, posted, rows))
}

#[test]
fn solutions_are_read(rt: HostRuntime) -> Result<(), Fail> {
    let cases = [
        (
            POST.as_slice(),
            1,
            (0, 3, 2, [1, 0, -1].as_slice()),
            [(0, 1, 5), (1, 2, 7)].as_slice(),
        ),
        (&TWO, 2, (0, 2, 1, &[1, 0]), &[(0, 1, 5)]),
        (&TWO, 2, (1, 3, 2, &[0, 0, 0]), &[(0, 1, 3), (2, 0, 4)]),
    ];
    for (bytes, count, posted, rows) in cases {
        assert!(rt; posts(rt.alloc(), bytes, count, posted, rows)?, "{rows:?}");
    }
    Ok(())
}

/// A post of one solution, written.
fn written(alloc: Global, entry: &Entry) -> Result<Option<Vec<u8>>, Fail> {
    let is_post = match &entry.ask.what {
        What::Post { solutions, .. } => solutions.rows().len() == 1,
        _ => false,
    };
    if is_post && entry.ask.by.is_some() {
        return Ok(Some(encode(alloc, entry)?));
    }
    Ok(None)
}

/// That of these bytes, written again.
fn written_again(alloc: Global, bytes: &[u8]) -> Result<Option<Vec<u8>>, Fail> {
    let entry = decode(alloc, bytes, Spelling::First)?;
    written(alloc, &entry)
}

#[test]
fn a_post_is_written_again(rt: HostRuntime) -> Result<(), Fail> {
    let again = written_again(rt.alloc(), &POST)?.ok_or("a post")?;
    assert!(rt; again.get(8..) == Some(POST.as_slice()));
    Ok(())
}

#[test]
fn rows_counts_and_potentials_have_their_limits(rt: HostRuntime) -> Result<(), Fail> {
    let twice = with(POST, 45, &[0, 0, 1]);
    let potential = with(POST, 68, &[0x7f]);
    let members = with(potential, 28, &[2]);
    let cases = [
        (with(POST, 45, &[2]), 45),
        (twice, 45),
        (with(twice, 35, &[3]), 33),
        (potential, 65),
        (members, 27),
        (with(members, 25, &[65]), 25),
    ];
    for (post, told) in cases {
        assert!(rt; is_told(rt.alloc(), &post, Some(told)), "{told}");
    }
    assert!(rt; is_told(rt.alloc(), &POST[..68], Some(65)));
    Ok(())
}

#[test]
fn members_of_a_later_solutions_rows_have_their_rules(rt: HostRuntime) -> Result<(), Fail> {
    // The row, its seller and buyer, and the row that is told: a pair again, a lower pair, a member with itself, and
    // members past the last.
    let cases = [
        (71, [0, 0, 1, 0], 71),
        (59, [2, 0, 1, 0], 71),
        (71, [2, 0, 2, 0], 71),
        (59, [1, 0, 1, 0], 59),
        (71, [3, 0, 0, 0], 71),
        (71, [2, 0, 3, 0], 71),
        (71, [2, 1, 0, 0], 71),
    ];
    for (row, pair, told) in cases {
        assert!(rt;
            is_told(rt.alloc(), &with(TWO, row, &pair), Some(told)),
            "row {row}"
        );
    }
    Ok(())
}

#[test]
fn amounts_of_a_later_solutions_rows_have_their_rules(rt: HostRuntime) -> Result<(), Fail> {
    // The first row's amount is 3, and the amounts of the solution before count for nothing.
    let cases = [
        (59, 0, Some(59)),
        (71, 0, Some(71)),
        (71, MOST_GROSS - 3, None),
        (71, MOST_GROSS - 2, Some(71)),
        (71, u64::MAX, Some(71)),
        (59, MOST_GROSS + 1, Some(59)),
    ];
    for (row, amount, told) in cases {
        let post = with(TWO, row + 4, &amount.to_le_bytes());
        assert!(rt; is_told(rt.alloc(), &post, told), "row {row}");
    }
    Ok(())
}
