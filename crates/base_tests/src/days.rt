//! Days: which texts and numbers name one, and their order.

use units_core::Day;

/// Whether each text names a day that is written back as the text, or none.
fn reads(cases: &[(&str, bool)]) -> bool {
    for &(text, exists) in cases {
        let is_right = match Day::read(text.as_bytes()) {
            Some(day) => exists && day.text().as_slice() == text.as_bytes(),
            None => !exists,
        };
        if !is_right {
            return false;
        }
    }
    true
}

#[test]
fn days_that_exist_are_read_and_written_back(rt: HostRuntime) {
    let cases = [
        ("2024-02-29", true),
        ("2023-02-29", false),
        ("1900-02-29", false),
        ("2000-02-29", true),
        ("0000-01-01", true),
        ("9999-12-31", true),
        ("10000-01-01", false),
        ("2026-00-10", false),
        ("2026-13-10", false),
        ("2026-04-31", false),
        ("2026/04/30", false),
        ("2026-04-30 ", false),
        ("20260430", false),
        ("", false),
    ];
    assert!(rt; reads(&cases));
}

/// Whether the numbers of each case make the day with its text, or none.
fn makes(cases: &[(u16, u8, u8, Option<&str>)]) -> bool {
    for &(year, month, day, want) in cases {
        let is_right = match (Day::new(year, month, day), want) {
            (Some(day), Some(text)) => day.text().as_slice() == text.as_bytes(),
            (None, None) => true,
            _ => false,
        };
        if !is_right {
            return false;
        }
    }
    true
}

#[test]
fn days_that_exist_are_made(rt: HostRuntime) {
    let cases = [
        (2024, 2, 29, Some("2024-02-29")),
        (2023, 2, 29, None),
        (2026, 0, 1, None),
        (2026, 13, 1, None),
        (10000, 1, 1, None),
    ];
    assert!(rt; makes(&cases));
}

/// Whether the first day of each case comes before the second, and in no other order.
fn is_ordered(cases: &[(&str, &str)]) -> bool {
    for &(first, second) in cases {
        let is_right = match (Day::read(first.as_bytes()), Day::read(second.as_bytes())) {
            (Some(first), Some(second)) => {
                first.comes_before(second)
                    && !second.comes_before(first)
                    && !first.comes_before(first)
            }
            _ => false,
        };
        if !is_right {
            return false;
        }
    }
    true
}

#[test]
fn days_have_the_order_of_year_month_and_day(rt: HostRuntime) {
    let cases = [
        ("2025-12-31", "2026-01-01"),
        ("2026-01-31", "2026-02-01"),
        ("2026-02-01", "2026-02-02"),
    ];
    assert!(rt; is_ordered(&cases));
}

/// Whether the text names the day of these numbers.
fn has(text: &str, year: u16, month: u8, day: u8) -> bool {
    match Day::read(text.as_bytes()) {
        Some(read) => read.year() == year && read.month() == month && read.day() == day,
        None => false,
    }
}

#[test]
fn a_day_has_its_three_numbers(rt: HostRuntime) {
    assert!(rt; has("2031-06-30", 2031, 6, 30));
}
