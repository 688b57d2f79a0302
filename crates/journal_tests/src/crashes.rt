//! Each call of the disk that fails, with all that a crash may then leave.

use crate::disks::{BEGUN, BEGUN_ONE, ONE};
use crate::traced_journals::{Change, Deed, Held, Seen, seen_after};
use std::alloc::Global;
use std::test::Fail;

/// The plain file of one record, and bytes behind its closed gate that an append writes over in part.
pub const ONE_AND_MORE: [u8; 42] =
    *b"OTCJRNL1\x01\x19\0\0\0\0\0\0\0\x01A\x01\x01A\x01B\x01P\x0a\0\0\0\0\0\0\0\xea\x07\x03\x02\0\x01\x01\x01";

/// Whether each call of an append that fails, of so many in turn, and then none, leaves what it has to. Until the append's second
/// call has failed a crash leaves the records from before, in its third and fourth either these or one more, and only the latter
/// when it is done.
fn survives_each_call(alloc: Global, change: &Change<'_>, calls: u64) -> Result<bool, Fail> {
    for call in 1..=calls {
        let seen = if call.saturating_add(2) <= calls {
            Seen::Before
        } else {
            Seen::Either
        };
        if seen_after(alloc, change, call)? != (seen, false) {
            return Ok(false);
        }
    }
    Ok(seen_after(alloc, change, 0)? == (Seen::After, true))
}

/// Records that a file holds without a base.
fn records<'a>(records: &'a [&'a [u8]]) -> Held<'a> {
    Held {
        ends: None,
        base: b"",
        records,
    }
}

// A walk has two calls and an append four. A start has none where the file is long enough, two where it begins as one with
// slots, and else four.
#[test]
fn a_crash_in_each_call_leaves_the_records_or_one_more(rt: HostRuntime) -> Result<(), Fail> {
    let one = [&ONE[13..38]];
    let two = [&ONE[13..38], b"AB"];
    let cases = [
        (ONE.as_slice(), one.as_slice(), two.as_slice(), 6),
        (&ONE_AND_MORE, &one, &two, 6),
        (&BEGUN_ONE, &one, &two, 6),
        (&BEGUN, &[], &two[1..], 8),
        (b"", &[], &two[1..], 10),
        (b"\x01\x01\x01\x01\x01\x01\x01\x01\x01", &[], &two[1..], 10),
    ];
    for (file, before, after, calls) in cases {
        let change = Change {
            file,
            deed: Deed::Append(b"AB"),
            before: records(before),
            after: records(after),
        };
        assert!(rt; survives_each_call(rt.alloc(), &change, calls)?);
    }
    Ok(())
}
