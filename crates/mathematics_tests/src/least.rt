//! What is solved for markets of three members has the least gross of all networks.

use crate::files::solved_text;
use crate::networks::so;
use crate::threes::{Amounts, Growing, least_gross, original};
use command_types::{Mode, Roster};
use dual_certificate::read_proposal;
use std::alloc::{AllocError, AllocGlobal, Global};
use std::test::Fail;
use std::thread::Threads;
use trade_file::read_roster;

fn put_line(text: &mut Vec<u8>, pair: &[u8], amount: u8) -> Result<(), AllocError> {
    if amount == 0 || amount > 9 {
        return Ok(());
    }
    text.extend_from_slice(pair)?;
    text.push(b'0' + amount)?;
    text.push(b'\n')?;
    Ok(())
}

fn trades_text(alloc: Global, of: &Amounts) -> Result<Vec<u8>, AllocError> {
    let mut text = Vec::new(alloc);
    text.extend_from_slice(b"seller,buyer,product,amount\n")?;
    put_line(&mut text, b"A,B,P,", of.ab)?;
    put_line(&mut text, b"A,C,P,", of.ac)?;
    put_line(&mut text, b"B,A,P,", of.ba)?;
    put_line(&mut text, b"B,C,P,", of.bc)?;
    put_line(&mut text, b"C,A,P,", of.ca)?;
    put_line(&mut text, b"C,B,P,", of.cb)?;
    Ok(text)
}

/// The least gross that is written for the market, if it has a product.
fn solved_gross<R: Threads + Sync + AllocGlobal>(
    rt: &R,
    roster: &Roster,
    mode: Mode,
    of: &Amounts,
) -> Result<Option<u64>, Fail> {
    let trades = trades_text(rt.alloc(), of)?;
    let text = solved_text(rt, 1, roster, mode, &trades)?;
    let parts = read_proposal(rt.alloc(), &text, roster)?;
    match parts.first() {
        None => Ok(None),
        Some(part) => Ok(Some(part.least)),
    }
}

/// That 67 markets are solved to the least gross of all networks in which these pairs may grow.
fn are_least<R: Threads + Sync + AllocGlobal>(
    rt: &R,
    parties: &[u8],
    mode: Mode,
    growing: Growing,
) -> Result<(), Fail> {
    let roster = read_roster(rt.alloc(), parties)?;
    for step in 0..67 {
        let old = original(step * 11);
        let found = solved_gross(rt, &roster, mode, &old)?;
        let least = u64::from(least_gross(&old, growing));
        so(found == Some(least), "the gross is otherwise")?;
    }
    Ok(())
}

const DEALERS: &[u8] =
    b"name,role,key\nA,dealer,KA\nB,dealer,KB\nC,dealer,KC\nP,product,2031-06-30\n";

const WITH_CUSTOMER: &[u8] =
    b"name,role,key\nA,dealer,KA\nB,dealer,KB\nC,customer,KC\nP,product,2031-06-30\n";

const CASES: &[(&[u8], Mode, Growing)] = &[
    (DEALERS, Mode::Conservative, Growing::Nobody),
    (WITH_CUSTOMER, Mode::Hybrid, Growing::AAndB),
    (DEALERS, Mode::Hybrid, Growing::All),
    (WITH_CUSTOMER, Mode::Free, Growing::All),
];

fn all_are_least<R: Threads + Sync + AllocGlobal>(rt: &R) -> Result<(), Fail> {
    for &(parties, mode, growing) in CASES {
        are_least(rt, parties, mode, growing)?;
    }
    Ok(())
}

#[test]
fn no_network_of_three_members_has_less_gross(rt: HostRuntime) -> Result<(), Fail> {
    all_are_least(&rt)
}
