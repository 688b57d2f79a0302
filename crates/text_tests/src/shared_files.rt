//! Trade files that readers share, from outside: of 10,000 records, which are cut into as many pieces as there are readers.

use command_types::{FileFault, Roster};
use std::alloc::{AllocError, AllocGlobal, Global};
use std::test::Fail;
use std::thread::Threads;
use trade_file::{FileTrade, Readers, read_roster, read_trades};

/// Places of records, from 0 on, and what stands there in place of the plain record. Five pieces have 2,000 places each.
type Others = &'static [(usize, &'static str)];

/// Files with the same trades as the file of plain records.
const SAME: &[Others] = &[
    &[],
    &[(7_000, "\"A\",B,P,50\n")],
    &[(2_000, "\n\n\r\nA,B,P,10\n"), (3_999, "A,B,P,89\n\n\n")],
    &[(5_000, "A,B,P,50\r\n"), (5_001, "A,B,P,51\r")],
    &[(9_999, "A,B,P,89")],
];

/// Files with faults, and the first of these.
const FAULTY: &[(Others, FileFault)] = &[
    (
        &[(0, "D,B,P,10\n"), (9_999, "A,A,P,10\n")],
        FileFault::UnknownName { row: 2 },
    ),
    (
        &[(1_999, "A,A,P,10\n"), (2_000, "D,B,P,10\n")],
        FileFault::SameParty { row: 2_001 },
    ),
    (
        &[(2_500, "A,B,P,01\n"), (4_500, "A,B,P\n")],
        FileFault::BadAmount { row: 2_502 },
    ),
    (
        &[(4_500, "A,B,P\n"), (6_500, "A,D,P,10\n"), (8_500, "\n")],
        FileFault::Columns { row: 4_502 },
    ),
    (
        &[(7_000, "\"A\",B,P,50\n"), (8_500, "A,B,P,10,\n")],
        FileFault::Columns { row: 8_502 },
    ),
    (
        &[(9_999, "A,B,Q,10\n")],
        FileFault::UnknownName { row: 10_001 },
    ),
    // A field in quotes has the line feeds of two pieces.
    (
        &[
            (3_000, "\"A\n"),
            (7_500, "\",B,P,10\n"),
            (8_500, "A,A,P,10\n"),
        ],
        FileFault::UnknownName { row: 3_002 },
    ),
];

/// Two dealers and a product.
fn read_parties(alloc: Global) -> Result<Roster, FileFault> {
    read_roster(
        alloc,
        b"name,role,key\nA,dealer,KA\nB,dealer,KB\nP,product,2031-06-30\n",
    )
}

/// 10,000 records of 9 bytes: trades of A to B in P, of 10 to 89, over and over.
fn plain_records(alloc: Global) -> Result<String, AllocError> {
    let mut round = String::new(alloc);
    for amount in 10..90 {
        let record = format!(in alloc; "A,B,P,{amount}\n")?;
        round.push_str(&record)?;
    }
    round.repeat(alloc, 125)
}

/// The file of the plain records, but at these places.
fn file_with(alloc: Global, others: Others) -> Result<Vec<u8>, AllocError> {
    let plain = plain_records(alloc)?;
    let mut text = Vec::new(alloc);
    text.extend_from_slice(b"seller,buyer,product,amount\n")?;
    for (place, record) in plain.as_bytes().chunks(9).enumerate() {
        match others.iter().find(|other| other.0 == place) {
            Some(&(_, line)) => text.extend_from_slice(line.as_bytes())?,
            None => text.extend_from_slice(record)?,
        }
    }
    Ok(text)
}

/// Whether trades are those of the plain file.
fn are_all(trades: &[FileTrade]) -> bool {
    for (place, trade) in trades.iter().enumerate() {
        if trade.seller.0 != 0
            || trade.buyer.0 != 1
            || trade.amount.get() != 10 + place as u64 % 80
        {
            return false;
        }
    }
    trades.len() == 10_000
}

/// Whether from 1 to 5 readers find all trades.
fn all_read<R: Threads + Sync + AllocGlobal>(rt: &R, text: &[u8]) -> Result<bool, Fail> {
    let roster = read_parties(rt.alloc())?;
    for count in 1..6 {
        let trades = read_trades(rt.alloc(), text, &roster, &Readers::new(rt, count))?;
        if !are_all(&trades) {
            return Ok(false);
        }
    }
    Ok(true)
}

/// Whether one reader, three and five find this fault.
fn all_find<R: Threads + Sync + AllocGlobal>(
    rt: &R,
    text: &[u8],
    fault: FileFault,
) -> Result<bool, Fail> {
    let roster = read_parties(rt.alloc())?;
    for pair in 0..3 {
        let read = read_trades(rt.alloc(), text, &roster, &Readers::new(rt, 2 * pair + 1));
        if read.err() != Some(fault) {
            return Ok(false);
        }
    }
    Ok(true)
}

/// Whether the files of `SAME` have the same trades.
fn same_are_read<R: Threads + Sync + AllocGlobal>(rt: &R) -> Result<bool, Fail> {
    for &others in SAME {
        let text = file_with(rt.alloc(), others)?;
        if !all_read(rt, &text)? {
            return Ok(false);
        }
    }
    Ok(true)
}

/// Whether the files of `FAULTY` have their faults.
fn faults_are_found<R: Threads + Sync + AllocGlobal>(rt: &R) -> Result<bool, Fail> {
    for &(others, fault) in FAULTY {
        let text = file_with(rt.alloc(), others)?;
        if !all_find(rt, &text, fault)? {
            return Ok(false);
        }
    }
    Ok(true)
}

#[test]
fn readers_find_the_trades_that_one_finds(rt: HostRuntime) -> Result<(), Fail> {
    assert!(rt; same_are_read(&rt)?);
    Ok(())
}

#[test]
fn readers_find_the_first_fault(rt: HostRuntime) -> Result<(), Fail> {
    assert!(rt; faults_are_found(&rt)?);
    Ok(())
}

/// Whether readers find that amounts pass 10^18 at the last record, where those of each piece do not.
fn passes_the_most<R: Threads + Sync + AllocGlobal>(rt: &R) -> Result<bool, Fail> {
    let alloc = rt.alloc();
    let half = "A,B,P,500000000000000\n".repeat(alloc, 1_000)?;
    let one = "A,B,P,1\n".repeat(alloc, 5_000)?;
    let text = format!(in alloc; "seller,buyer,product,amount\n{half}{one}{half}")?;
    all_find(rt, text.as_bytes(), FileFault::GrossLimit { row: 7_001 })
}

#[test]
fn readers_find_where_all_pieces_pass_the_most_gross(rt: HostRuntime) -> Result<(), Fail> {
    assert!(rt; passes_the_most(&rt)?);
    Ok(())
}
