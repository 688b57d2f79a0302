//! Houses on files that hold a base.

use crate::bases::{AT, based};
use crate::disks::with;
use crate::house_lives::{End, Life, Party, Said, Step, Told, is_found, is_lived};
use crate::houses::{answer_to, content_opened, damaged, large_disk_of};
use std::test::Fail;

const AFFIRMED_BEHIND_THREE: [Step; 2] = [
    (Party::Operator, Said::Nets, 3, Told::Gross(7)),
    (Party::B, Said::Affirm(1), 4, Told::Done),
];

// The base has position 3 and a live trade of 7; the record behind it makes one of 10 live.
#[test]
fn a_house_goes_on_from_a_base(rt: HostRuntime) -> Result<(), Fail> {
    let alloc = rt.alloc();
    let mut file = based();
    assert!(rt; is_found(&rt, alloc, large_disk_of(alloc, &file)?, (4, 17))?);
    file[150] = 0;
    let life = Life {
        file: &file,
        failing: 0,
        first: &[],
        then: &AFFIRMED_BEHIND_THREE,
        end: End::Open,
    };
    assert!(rt; is_lived(&rt, alloc, &life, (4, 17), (4, 17))?);
    Ok(())
}

// With the mark 2 changes behind the base have their moments: none does without one, and the journal needs no turn.
#[test]
fn behind_a_base_of_the_second_mark_changes_have_moments(rt: HostRuntime) -> Result<(), Fail> {
    let alloc = rt.alloc();
    let mut file = with(based(), AT, &[2]);
    assert!(rt; answer_to(&rt, alloc, &file)? == damaged(150));
    file[150] = 0;
    assert!(rt; is_found(&rt, alloc, large_disk_of(alloc, &file)?, (3, 7))?);
    assert!(rt; content_opened(&rt, alloc, &file)?.as_slice() == file.as_slice());
    Ok(())
}

#[test]
fn a_base_that_does_not_fit_the_roster_is_damage_at_its_offset(
    rt: HostRuntime,
) -> Result<(), Fail> {
    let all = [0xff; 8];
    let much = 999_999_999_999_999_994u64.to_le_bytes();
    let cases = [
        // Another member, and another product.
        (32, b"D".as_slice()),
        (36, b"Q"),
        // A position, a cycle and a version past 10^18.
        (1, &all),
        (9, &all),
        (17, &all),
        // A setting of no member, of no product, with no member, with the member itself, and from 4 to 3.
        (45, &[3]),
        (47, &[1]),
        (49, &[3]),
        (49, &[0]),
        (61, &[3]),
        // A trade of no seller, to no buyer, in no product, and to the seller.
        (77, &[3]),
        (79, &[3]),
        (81, &[1]),
        (79, &[0]),
        // With the live one of 7 the product has more than 10^18.
        (83, &much),
        // An alleged trade without a submitter, with a mark, with a hold.
        (96, &[0]),
        (97, &[2]),
        (98, &[1]),
    ];
    for (place, bytes) in cases {
        let file = with(based(), AT.saturating_add(place), bytes);
        assert!(rt;
            answer_to(&rt, rt.alloc(), &file)? == damaged(25),
            "{bytes:?} at {place}"
        );
    }
    Ok(())
}

// Byte 161 is the change's tag, and byte 162 the trade's number: 2 is live already.
#[test]
fn a_bad_record_then_the_base_then_a_refused_change_is_told(rt: HostRuntime) -> Result<(), Fail> {
    let alloc = rt.alloc();
    let mut refused = based();
    refused[162] = 2;
    let mut misfit = refused;
    misfit[AT + 32] = b'D';
    let mut unreadable = misfit;
    unreadable[161] = 13;
    let cases = [(refused, 150), (misfit, 25), (unreadable, 150)];
    for (file, place) in cases {
        assert!(rt;
            answer_to(&rt, alloc, &file)? == damaged(place),
            "at {place}"
        );
    }
    Ok(())
}
