//! Names, and places in the roster.

use units_core::{MemberNo, Name, ProductNo};

/// Whether each text is a name that gives the text back, or none.
fn reads(cases: &[(&str, bool)]) -> bool {
    for &(text, is_name) in cases {
        let is_right = match Name::read(text.as_bytes()) {
            Some(name) => is_name && name.text() == text.as_bytes(),
            None => !is_name,
        };
        if !is_right {
            return false;
        }
    }
    true
}

#[test]
fn names_are_read_and_given_back(rt: HostRuntime) {
    let cases = [
        ("A", true),
        ("BANK-7", true),
        ("-", true),
        ("ABCDEFGHIJKLMNOP", true),
        ("ABCDEFGHIJKLMNOPQ", false),
        ("", false),
        ("bank", false),
        ("A B", false),
        ("A_B", false),
        ("[", false),
        ("É", false),
    ];
    assert!(rt; reads(&cases));
}

/// Whether both texts are names, and the same one exactly where that is said.
fn are(first: &str, second: &str, same: bool) -> bool {
    match (Name::read(first.as_bytes()), Name::read(second.as_bytes())) {
        (Some(first), Some(second)) => first.is(&second) == same && (first == second) == same,
        _ => false,
    }
}

#[test]
fn names_are_told_apart(rt: HostRuntime) {
    assert!(rt; are("A", "A", true) && are("A", "AB", false));
}

#[test]
fn places_are_their_numbers(rt: HostRuntime) {
    let are_numbers = MemberNo(255).index() == 255
        && ProductNo(63).index() == 63
        && MemberNo(3) != MemberNo(4)
        && ProductNo(5) == ProductNo(5);
    assert!(rt; are_numbers);
}
