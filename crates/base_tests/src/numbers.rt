//! Whole numbers and amounts in digits: what is read, the first fault, and what is printed.

use std::alloc::{AllocError, Global};
use std::test::Fail;
use units_core::{Amount, NumberFault, print_i128, print_u128, read_number, read_signed};

/// Whether each text is read as its number up to the most, or has its fault.
fn reads(cases: &[(&str, u64, Result<u64, NumberFault>)]) -> bool {
    for &(text, most, want) in cases {
        if read_number(text.as_bytes(), most) != want {
            return false;
        }
    }
    true
}

#[test]
fn numbers_are_read_and_the_first_fault_is_told(rt: HostRuntime) {
    let cases = [
        ("", 9, Err(NumberFault::Empty)),
        ("0", 0, Ok(0)),
        ("00", 9, Err(NumberFault::LeadingZero)),
        ("01", 9, Err(NumberFault::LeadingZero)),
        ("0x", 9, Err(NumberFault::NotDigit { at: 1 })),
        ("12 ", 99, Err(NumberFault::NotDigit { at: 2 })),
        ("+1", 9, Err(NumberFault::NotDigit { at: 0 })),
        ("100", 100, Ok(100)),
        ("101", 100, Err(NumberFault::TooLarge)),
        (
            "18446744073709551615",
            u64::MAX,
            Ok(18_446_744_073_709_551_615),
        ),
        ("18446744073709551616", u64::MAX, Err(NumberFault::TooLarge)),
        (
            "340282366920938463463374607431768211456",
            u64::MAX,
            Err(NumberFault::TooLarge),
        ),
        (
            "99999999999999999999999999999999999999999:",
            9,
            Err(NumberFault::NotDigit { at: 41 }),
        ),
    ];
    assert!(rt; reads(&cases));
}

/// Whether each text is read as its number with or without a sign, or has its fault.
fn reads_signed(cases: &[(&str, Result<i32, NumberFault>)]) -> bool {
    for &(text, want) in cases {
        if read_signed(text.as_bytes()) != want {
            return false;
        }
    }
    true
}

#[test]
fn signed_numbers_are_read_and_the_first_fault_is_told(rt: HostRuntime) {
    let cases = [
        ("", Err(NumberFault::Empty)),
        ("-", Err(NumberFault::Empty)),
        ("0", Ok(0)),
        ("-0", Err(NumberFault::Zero)),
        ("-00", Err(NumberFault::LeadingZero)),
        ("7", Ok(7)),
        ("-7", Ok(-7)),
        ("1000000", Ok(1_000_000)),
        ("-1000000", Ok(-1_000_000)),
        ("1000001", Err(NumberFault::TooLarge)),
        ("-1000001", Err(NumberFault::TooLarge)),
        ("--1", Err(NumberFault::NotDigit { at: 1 })),
        ("-12x", Err(NumberFault::NotDigit { at: 3 })),
    ];
    assert!(rt; reads_signed(&cases));
}

/// Whether each text is read as its amount, or has its fault.
fn reads_amounts(cases: &[(&str, Result<u64, NumberFault>)]) -> bool {
    for &(text, want) in cases {
        let is_right = match Amount::read(text.as_bytes()) {
            Ok(amount) => want == Ok(amount.get()),
            Err(fault) => want == Err(fault),
        };
        if !is_right {
            return false;
        }
    }
    true
}

#[test]
fn amounts_are_read_and_the_first_fault_is_told(rt: HostRuntime) {
    let cases = [
        ("", Err(NumberFault::Empty)),
        ("0", Err(NumberFault::Zero)),
        ("00", Err(NumberFault::LeadingZero)),
        ("1", Ok(1)),
        ("1000000000000000000", Ok(1_000_000_000_000_000_000)),
        ("1000000000000000001", Err(NumberFault::TooLarge)),
        ("-1", Err(NumberFault::NotDigit { at: 0 })),
    ];
    assert!(rt; reads_amounts(&cases));
}

/// Whether each number is an amount, with the number again, or none.
fn makes(cases: &[(u64, bool)]) -> bool {
    for &(n, is_amount) in cases {
        let is_right = match Amount::new(n) {
            Some(amount) => is_amount && amount.get() == n,
            None => !is_amount,
        };
        if !is_right {
            return false;
        }
    }
    true
}

#[test]
fn amounts_are_made_in_their_range(rt: HostRuntime) {
    let cases = [
        (0, false),
        (1, true),
        (1_000_000_000_000_000_000, true),
        (1_000_000_000_000_000_001, false),
    ];
    assert!(rt; makes(&cases));
}

/// The largest number, the smallest, zero and -7, printed with a space between.
fn printed(alloc: Global) -> Result<Vec<u8>, AllocError> {
    let mut out = Vec::new(alloc);
    print_u128(u128::MAX, &mut out)?;
    out.push(b' ')?;
    print_i128(i128::MIN, &mut out)?;
    out.push(b' ')?;
    print_u128(0, &mut out)?;
    out.push(b' ')?;
    print_i128(-7, &mut out)?;
    Ok(out)
}

#[test]
fn the_largest_the_smallest_and_zero_are_printed(rt: HostRuntime) -> Result<(), Fail> {
    let want =
        b"340282366920938463463374607431768211455 -170141183460469231731687303715884105728 0 -7";
    assert!(rt; printed(rt.alloc())?.as_slice() == want.as_slice());
    Ok(())
}
