//! Rows that are no network and no limits, and values that are copied and taken apart.

use network_laws::{Bounds, LimitFault, LimitRow, Limits, Network, NetworkFault, Row, Solution};
use std::alloc::{AllocError, Global};
use std::test::Fail;

fn row(seller: u16, buyer: u16, amount: u64) -> Row {
    Row {
        seller,
        buyer,
        amount,
    }
}

fn limit(seller: u16, buyer: u16, lower: u64, upper: Option<u64>) -> LimitRow {
    LimitRow {
        seller,
        buyer,
        lower,
        upper,
    }
}

/// Whether the rows of each case, between so many members, have this first fault, or none.
fn has_faults(
    alloc: Global,
    cases: &[(u16, [Row; 2], Option<NetworkFault>)],
) -> Result<bool, AllocError> {
    for &(members, rows, fault) in cases {
        let rows = Vec::from_array(alloc, rows)?;
        if Network::from_rows(members, rows).err() != fault {
            return Ok(false);
        }
    }
    Ok(true)
}

#[test]
fn the_first_fault_of_rows_is_told(rt: HostRuntime) -> Result<(), Fail> {
    let most = 1_000_000_000_000_000_000;
    let too_many = NetworkFault::Members;
    let cases = [
        (257, [row(0, 1, 1), row(0, 1, 0)], Some(too_many)),
        (
            3,
            [row(0, 1, 1), row(1, 3, 0)],
            Some(NetworkFault::Member { at: 1 }),
        ),
        (
            3,
            [row(3, 3, 0), row(1, 1, 0)],
            Some(NetworkFault::Member { at: 0 }),
        ),
        (
            3,
            [row(0, 1, 1), row(0, 0, 0)],
            Some(NetworkFault::Same { at: 1 }),
        ),
        (
            3,
            [row(0, 1, 1), row(0, 1, 0)],
            Some(NetworkFault::Zero { at: 1 }),
        ),
        (
            3,
            [row(0, 1, 1), row(0, 1, most)],
            Some(NetworkFault::Order { at: 1 }),
        ),
        (
            3,
            [row(1, 0, 1), row(0, 2, most)],
            Some(NetworkFault::Order { at: 1 }),
        ),
        (
            3,
            [row(0, 1, most), row(1, 0, 1)],
            Some(NetworkFault::Gross { at: 1 }),
        ),
        (256, [row(0, 1, most - 1), row(255, 0, 1)], None),
    ];
    assert!(rt; has_faults(rt.alloc(), &cases)?);
    Ok(())
}

/// Whether the limits of each case, between so many members, have this first fault, or none.
fn has_limit_faults(
    alloc: Global,
    cases: &[(u16, [LimitRow; 2], Option<LimitFault>)],
) -> Result<bool, AllocError> {
    for &(members, rows, fault) in cases {
        let rows = Vec::from_array(alloc, rows)?;
        if Limits::from_rows(members, rows).err() != fault {
            return Ok(false);
        }
    }
    Ok(true)
}

#[test]
fn the_first_fault_of_limits_is_told(rt: HostRuntime) -> Result<(), Fail> {
    let one = limit(0, 1, 1, None);
    let cases = [
        (257, [one, limit(0, 1, 0, None)], Some(LimitFault::Members)),
        (
            3,
            [one, limit(1, 3, 2, Some(1))],
            Some(LimitFault::Member { at: 1 }),
        ),
        (
            3,
            [one, limit(0, 0, 2, Some(1))],
            Some(LimitFault::Same { at: 1 }),
        ),
        (
            3,
            [one, limit(0, 1, 2, Some(1))],
            Some(LimitFault::Order { at: 1 }),
        ),
        (
            3,
            [limit(1, 0, 1, None), limit(0, 2, 2, Some(1))],
            Some(LimitFault::Order { at: 1 }),
        ),
        (
            3,
            [one, limit(1, 0, 2, Some(1))],
            Some(LimitFault::Crossed { at: 1 }),
        ),
        (256, [one, limit(255, 0, 1, Some(1))], None),
    ];
    assert!(rt; has_limit_faults(rt.alloc(), &cases)?);
    Ok(())
}

/// Whether a network of these rows has its amounts in a copy, and its rows again.
fn is_kept(alloc: Global, rows: &[Row], amounts: &[Row]) -> Result<bool, Fail> {
    let network = Network::from_rows(3, rows.to_vec(alloc)?)?;
    let copy = network.copy()?;
    for &Row {
        seller,
        buyer,
        amount,
    } in amounts {
        if copy.amount(seller, buyer) != amount {
            return Ok(false);
        }
    }
    Ok(copy.members() == 3 && copy.into_rows().as_slice() == rows)
}

#[test]
fn a_network_is_copied_and_taken_apart(rt: HostRuntime) -> Result<(), Fail> {
    let rows = [row(0, 1, 4), row(1, 2, 10)];
    let amounts = [row(0, 1, 4), row(1, 2, 10), row(1, 0, 0)];
    assert!(rt; is_kept(rt.alloc(), &rows, &amounts)?);
    Ok(())
}

/// Whether limits of these rows have these bounds in a copy, and their rows again.
fn are_kept(alloc: Global, rows: &[LimitRow], bounds: &[LimitRow]) -> Result<bool, Fail> {
    let limits = Limits::from_rows(3, rows.to_vec(alloc)?)?;
    let copy = limits.copy()?;
    for &LimitRow {
        seller,
        buyer,
        lower,
        upper,
    } in bounds {
        if copy.bounds(seller, buyer) != (Bounds { lower, upper }) {
            return Ok(false);
        }
    }
    Ok(copy.members() == 3 && copy.into_rows().as_slice() == rows)
}

#[test]
fn limits_are_copied_and_taken_apart(rt: HostRuntime) -> Result<(), Fail> {
    let rows = [limit(0, 1, 4, Some(10)), limit(1, 2, 0, None)];
    let bounds = [limit(1, 2, 0, None), limit(1, 0, 0, Some(0))];
    assert!(rt; are_kept(rt.alloc(), &rows, &bounds)?);
    Ok(())
}

/// Whether a solution of three members has these rows and potentials, and a copy of it, taken apart, too.
fn is_copied(alloc: Global, rows: &[Row]) -> Result<bool, Fail> {
    let network = Network::from_rows(3, rows.to_vec(alloc)?)?;
    let potentials = Vec::from_array(alloc, [1_000_000, -1_000_000, 0])?;
    let solution = Solution::new(network, potentials);
    let (network, copied) = solution.copy()?.into_parts();
    Ok(
        solution.network().rows() == rows
            && copied.as_slice() == solution.potentials()
            && network.rows() == rows,
    )
}

#[test]
fn a_solution_is_copied_and_taken_apart(rt: HostRuntime) -> Result<(), Fail> {
    let rows = [row(0, 1, 4), row(1, 2, 10)];
    assert!(rt; is_copied(rt.alloc(), &rows)?);
    Ok(())
}
