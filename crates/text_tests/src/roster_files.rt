//! Roster files, from outside.

use command_types::{FileFault, Role, Roster};
use std::alloc::{AllocError, Global};
use std::test::Fail;
use trade_file::read_roster;

const HEADER: &str = "name,role,key\n";

/// Whether the members are those of the rows, in their order.
fn has_members(roster: &Roster, rows: &[(&str, Role, &str)]) -> bool {
    let members = roster.members();
    for (row, &(name, role, key)) in members.iter().zip(rows) {
        if row.name.text() != name.as_bytes()
            || row.role != role
            || row.key.text() != key.as_bytes()
        {
            return false;
        }
    }
    members.len() == rows.len()
}

/// Whether there is one product, with this name and day.
fn has_product(roster: &Roster, name: &str, day: &str) -> bool {
    match roster.products() {
        [row] => {
            row.name.text() == name.as_bytes() && row.maturity.text().as_slice() == day.as_bytes()
        }
        _ => false,
    }
}

/// Whether there is an operator, with this name and key.
fn has_operator(roster: &Roster, name: &str, key: &str) -> bool {
    match roster.operator() {
        Some(row) => row.name.text() == name.as_bytes() && row.key.text() == key.as_bytes(),
        None => false,
    }
}

#[test]
fn a_roster_of_three_dealers_a_customer_an_operator_and_a_product(
    rt: HostRuntime,
) -> Result<(), Fail> {
    let text =
        b"name,role,key\nA,dealer,KA\nB,dealer,KB\nC,dealer,KC\nD,customer,KD\nOPS,operator,KO\nP,product,2031-06-30\n";
    let roster = read_roster(rt.alloc(), text)?;
    let rows = [
        ("A", Role::Dealer, "KA"),
        ("B", Role::Dealer, "KB"),
        ("C", Role::Dealer, "KC"),
        ("D", Role::Customer, "KD"),
    ];
    assert!(rt; has_members(&roster, &rows));
    assert!(rt; has_product(&roster, "P", "2031-06-30") && has_operator(&roster, "OPS", "KO"));
    Ok(())
}

/// The first fault of a roster file, or none.
fn fault_of(alloc: Global, text: &[u8]) -> Result<Option<FileFault>, AllocError> {
    match read_roster(alloc, text) {
        Ok(_) => Ok(None),
        Err(FileFault::Memory) => Err(AllocError),
        Err(fault) => Ok(Some(fault)),
    }
}

/// Whether each file of this header and these records has its first fault, or none.
fn has_faults(
    alloc: Global,
    header: &str,
    cases: &[(&str, Option<FileFault>)],
) -> Result<bool, AllocError> {
    for &(rest, want) in cases {
        let text = format!(in alloc; "{header}{rest}")?;
        if fault_of(alloc, text.as_bytes())? != want {
            return Ok(false);
        }
    }
    Ok(true)
}

#[test]
fn the_first_fault_is_told_with_its_row(rt: HostRuntime) -> Result<(), Fail> {
    let cases = [
        ("", None),
        ("A,dealer,KA", None),
        (
            "A,dealer,KA\nB,broker,KB\n",
            Some(FileFault::BadRole { row: 3 }),
        ),
        ("A,Dealer,KA\n", Some(FileFault::BadRole { row: 2 })),
        ("A,dealer\n", Some(FileFault::Columns { row: 2 })),
        ("A,dealer,KA,\n", Some(FileFault::Columns { row: 2 })),
        (
            "\n\r\n\nA,dealer,KA\n\nB\n",
            Some(FileFault::Columns { row: 3 }),
        ),
        ("bank,dealer,KA\n", Some(FileFault::BadName { row: 2 })),
        (",dealer,KA\n", Some(FileFault::BadName { row: 2 })),
        ("É,dealer,KA\n", Some(FileFault::BadName { row: 2 })),
        ("A,dealer,ka\n", Some(FileFault::BadName { row: 2 })),
        ("A,customer,\n", Some(FileFault::BadName { row: 2 })),
        ("OPS,operator,\n", Some(FileFault::BadName { row: 2 })),
        ("P,product,2031-02-30\n", Some(FileFault::BadDay { row: 2 })),
        ("P,product,KP\n", Some(FileFault::BadDay { row: 2 })),
        (
            "A,dealer,KA\nA,customer,KB\n",
            Some(FileFault::Twice { row: 3 }),
        ),
        (
            "A,dealer,KA\nB,dealer,KA\nA,product,2031-06-30\n",
            Some(FileFault::Twice { row: 4 }),
        ),
        (
            "A,product,2031-06-30\nA,operator,KO\n",
            Some(FileFault::Twice { row: 3 }),
        ),
        (
            "OPS,operator,KO\nX,operator,KX\n",
            Some(FileFault::Twice { row: 3 }),
        ),
        ("a,broker,ka\n", Some(FileFault::BadName { row: 2 })),
        ("A,broker,ka\n", Some(FileFault::BadRole { row: 2 })),
        (
            "A,dealer,KA\nA,broker,KB\n",
            Some(FileFault::BadRole { row: 3 }),
        ),
        (
            "A,dealer,KA\nA,dealer,kb\n",
            Some(FileFault::BadName { row: 3 }),
        ),
        ("A,dealer,KA\r\nB,dealer,KB\r\n", None),
        (
            "A,dealer,KA\rB,dealer\n",
            Some(FileFault::Columns { row: 3 }),
        ),
        ("\"A\",\"dealer\",\"KA\"\n", None),
        ("\"A\"\"\",dealer,KA\n", Some(FileFault::BadName { row: 2 })),
        (
            "\"A\nB\",dealer,KA\nC\n",
            Some(FileFault::BadName { row: 2 }),
        ),
        (
            "A,dealer,KA\n\"B,dealer,KB\nC,dealer,KC\n",
            Some(FileFault::Columns { row: 3 }),
        ),
    ];
    assert!(rt; has_faults(rt.alloc(), HEADER, &cases)?);
    Ok(())
}

#[test]
fn the_first_record_is_the_header(rt: HostRuntime) -> Result<(), Fail> {
    let first = Some(FileFault::Columns { row: 1 });
    let cases = [
        ("", first),
        ("\n\r\n", first),
        ("A,dealer,KA\n", first),
        ("name,role\n", first),
        ("name,role,key,\n", first),
        ("name,role,Key\n", first),
        ("\u{feff}name,role,key", None),
        ("\n\"name\",role,key\r\n", None),
    ];
    assert!(rt; has_faults(rt.alloc(), "", &cases)?);
    Ok(())
}

/// A roster file with so many dealers, customers and products.
fn file_of(
    alloc: Global,
    dealers: u16,
    customers: u16,
    products: u16,
) -> Result<String, AllocError> {
    let mut text = String::from_str(alloc, HEADER)?;
    for number in 0..dealers {
        text.push_str(format!(in alloc; "D{number},dealer,K\n")?.as_str())?;
    }
    for number in 0..customers {
        text.push_str(format!(in alloc; "C{number},customer,K\n")?.as_str())?;
    }
    for number in 0..products {
        text.push_str(format!(in alloc; "P{number},product,2031-06-30\n")?.as_str())?;
    }
    Ok(text)
}

/// Whether a file with so many dealers, customers and products has its first fault, or none.
fn is_limited(
    alloc: Global,
    cases: &[(u16, u16, u16, Option<FileFault>)],
) -> Result<bool, AllocError> {
    for &(dealers, customers, products, want) in cases {
        let text = file_of(alloc, dealers, customers, products)?;
        if fault_of(alloc, text.as_bytes())? != want {
            return Ok(false);
        }
    }
    Ok(true)
}

#[test]
fn a_roster_has_at_most_256_members_64_dealers_and_64_products(
    rt: HostRuntime,
) -> Result<(), Fail> {
    let cases = [
        (64, 192, 64, None),
        (0, 256, 0, None),
        (0, 257, 0, Some(FileFault::RowLimit { row: 258 })),
        (64, 193, 1, Some(FileFault::RowLimit { row: 258 })),
        (65, 0, 0, Some(FileFault::RowLimit { row: 66 })),
        (1, 1, 65, Some(FileFault::RowLimit { row: 68 })),
    ];
    assert!(rt; is_limited(rt.alloc(), &cases)?);
    Ok(())
}

/// Whether a file of so many line feeds is too long.
fn is_too_long(alloc: Global, size: usize) -> Result<bool, AllocError> {
    let long = vec![in alloc; b'\n'; size]?;
    Ok(fault_of(alloc, &long)? == Some(FileFault::TooLong))
}

#[test]
fn a_roster_file_of_more_than_64_mib_is_too_long(rt: HostRuntime) -> Result<(), Fail> {
    assert!(rt; is_too_long(rt.alloc(), 67_108_865)?);
    Ok(())
}
