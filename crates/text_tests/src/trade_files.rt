//! Trade files, from outside.

use command_types::{FileFault, Roster};
use std::alloc::{AllocError, AllocGlobal, Global};
use std::test::Fail;
use std::thread::Threads;
use trade_file::{FileTrade, Readers, read_roster, read_trades};

const HEADER: &str = "seller,buyer,product,amount\n";

/// Two dealers, a customer, an operator and two products.
fn read_parties(alloc: Global) -> Result<Roster, FileFault> {
    let text =
        b"name,role,key\nA,dealer,KA\nB,dealer,KB\nC,customer,KC\nOPS,operator,KO\nP,product,2031-06-30\nQ,product,2031-06-30\n";
    read_roster(alloc, text)
}

/// The trades of a file, or its first fault, but for want of memory.
fn read<R: Threads + Sync + AllocGlobal>(
    rt: &R,
    text: &[u8],
) -> Result<Result<Vec<FileTrade>, FileFault>, AllocError> {
    let Ok(roster) = read_parties(rt.alloc()) else {
        return Err(AllocError);
    };
    match read_trades(rt.alloc(), text, &roster, &Readers::new(rt, 5)) {
        Err(FileFault::Memory) => Err(AllocError),
        trades => Ok(trades),
    }
}

/// Whether the file of these records behind the header has these trades, by seller, buyer, product and amount.
fn has_trades<R: Threads + Sync + AllocGlobal>(
    rt: &R,
    rest: &str,
    rows: &[(u16, u16, u16, u64)],
) -> Result<bool, AllocError> {
    let text = format!(in rt.alloc(); "{HEADER}{rest}")?;
    let Ok(trades) = read(rt, text.as_bytes())? else {
        return Ok(false);
    };
    for (trade, &row) in trades.iter().zip(rows) {
        let (seller, buyer, product, amount) = row;
        if trade.seller.0 != seller
            || trade.buyer.0 != buyer
            || trade.product.0 != product
            || trade.amount.get() != amount
        {
            return Ok(false);
        }
    }
    Ok(trades.len() == rows.len())
}

#[test]
fn trades_are_read_in_their_order(rt: HostRuntime) -> Result<(), Fail> {
    let rows = [(0, 1, 0, 10), (2, 0, 1, 1_000_000_000_000_000)];
    assert!(rt; has_trades(&rt, "A,B,P,10\nC,A,Q,1000000000000000\n", &rows)?);
    Ok(())
}

#[test]
fn a_header_alone_has_no_trades(rt: HostRuntime) -> Result<(), Fail> {
    assert!(rt; has_trades(&rt, "", &[])?);
    Ok(())
}

/// Whether each of these files has the trades of A to B in P and of C to A in Q, of 10 and of 7.
fn have_both_trades<R: Threads + Sync + AllocGlobal>(
    rt: &R,
    files: &[&[u8]],
) -> Result<bool, AllocError> {
    for &file in files {
        let Ok(trades) = read(rt, file)? else {
            return Ok(false);
        };
        let both = trades.len() == 2
            && trades[0].seller.0 == 0
            && trades[0].buyer.0 == 1
            && trades[0].product.0 == 0
            && trades[0].amount.get() == 10
            && trades[1].seller.0 == 2
            && trades[1].buyer.0 == 0
            && trades[1].product.0 == 1
            && trades[1].amount.get() == 7;
        if !both {
            return Ok(false);
        }
    }
    Ok(true)
}

#[test]
fn line_ends_marks_and_quotes_change_no_trade(rt: HostRuntime) -> Result<(), Fail> {
    let files: [&[u8]; 9] = [
        b"seller,buyer,product,amount\nA,B,P,10\nC,A,Q,7\n",
        b"seller,buyer,product,amount\nA,B,P,10\nC,A,Q,7",
        b"seller,buyer,product,amount\r\nA,B,P,10\r\nC,A,Q,7\r\n",
        b"seller,buyer,product,amount\rA,B,P,10\rC,A,Q,7",
        b"\n\r\nseller,buyer,product,amount\n\nA,B,P,10\n\n\nC,A,Q,7\n\n",
        b"\xef\xbb\xbfseller,buyer,product,amount\nA,B,P,10\nC,A,Q,7\n",
        b"seller,buyer,product,amount\n\"A\",\"B\",\"P\",\"10\"\nC,A,Q,7\n",
        b"seller,buyer,product,amount\nA,B,P,10\nC,A,Q,\"7\"",
        b"\"seller\",buyer,product,\"amount\"\r\nA,B,P,10\r\nC,A,Q,7\r\n",
    ];
    assert!(rt; have_both_trades(&rt, &files)?);
    Ok(())
}

/// Whether each file of this header and these records has its first fault, or none.
fn has_faults<R: Threads + Sync + AllocGlobal>(
    rt: &R,
    header: &str,
    cases: &[(&str, Option<FileFault>)],
) -> Result<bool, AllocError> {
    for &(rest, want) in cases {
        let text = format!(in rt.alloc(); "{header}{rest}")?;
        if read(rt, text.as_bytes())?.err() != want {
            return Ok(false);
        }
    }
    Ok(true)
}

#[test]
fn a_file_without_a_record_has_not_the_columns(rt: HostRuntime) -> Result<(), Fail> {
    let first = Some(FileFault::Columns { row: 1 });
    let cases = [("", first), ("seller,buyer,product\n", first)];
    assert!(rt; has_faults(&rt, "", &cases)?);
    Ok(())
}

#[test]
fn the_first_fault_of_a_record_is_told(rt: HostRuntime) -> Result<(), Fail> {
    let unknown = Some(FileFault::UnknownName { row: 2 });
    let bad = Some(FileFault::BadAmount { row: 2 });
    let cases = [
        ("A,B,P,1\nA,B,P\n", Some(FileFault::Columns { row: 3 })),
        ("D,B,P,1\n", unknown),
        ("A,OPS,P,1\n", unknown),
        ("A,B,A,1\n", unknown),
        ("a,a,P,0\n", unknown),
        ("A,A,P,1\n", Some(FileFault::SameParty { row: 2 })),
        ("A,B,P,1000000000000001\n", bad),
        ("A,B,P,0\n", bad),
        ("A,B,P, 1\n", bad),
        ("A,B,P,01\n", bad),
        ("A,B,P,1 \n", bad),
        ("A,B,P,\n", bad),
        ("A,B,P,1,\n", Some(FileFault::Columns { row: 2 })),
        ("A\nB,P,1\n", Some(FileFault::Columns { row: 2 })),
        (
            "A,B,P,1\n\"A\n\",B,P,1\n",
            Some(FileFault::UnknownName { row: 3 }),
        ),
    ];
    assert!(rt; has_faults(&rt, HEADER, &cases)?);
    Ok(())
}

/// Whether a record may come so often, and this fault comes where these records follow it.
fn is_limited<R: Threads + Sync + AllocGlobal>(
    rt: &R,
    record: &str,
    times: usize,
    rest: &str,
    fault: FileFault,
) -> Result<bool, AllocError> {
    let most = record.repeat(rt.alloc(), times)?;
    let more = format!(in rt.alloc(); "{most}{rest}")?;
    let cases = [(most.as_str(), None), (more.as_str(), Some(fault))];
    has_faults(rt, HEADER, &cases)
}

#[test]
fn a_products_amounts_stay_within_10_to_the_18(rt: HostRuntime) -> Result<(), Fail> {
    let record = "A,B,P,1000000000000000\n";
    let fault = FileFault::GrossLimit { row: 1003 };
    assert!(rt; is_limited(&rt, record, 1000, "A,B,Q,1\nB,A,P,1\n", fault)?);
    Ok(())
}

#[test]
fn a_file_has_at_most_100000_trades(rt: HostRuntime) -> Result<(), Fail> {
    let fault = FileFault::RowLimit { row: 100_002 };
    assert!(rt; is_limited(&rt, "A,B,P,1\n", 100_000, "bad\n", fault)?);
    Ok(())
}

/// Whether a file of so many line feeds is too long.
fn is_too_long<R: Threads + Sync + AllocGlobal>(rt: &R, size: usize) -> Result<bool, AllocError> {
    let long = vec![in rt.alloc(); b'\n'; size]?;
    Ok(read(rt, &long)?.err() == Some(FileFault::TooLong))
}

#[test]
fn a_trade_file_of_more_than_64_mib_is_too_long(rt: HostRuntime) -> Result<(), Fail> {
    assert!(rt; is_too_long(&rt, 67_108_865)?);
    Ok(())
}
