//! The places that are told of lines that are not of the grammar.

use command_text::read_line;

/// Whether no text is a line of the grammar, and this place is told of each.
fn are_wrong(cases: &[(&str, u32)]) -> bool {
    for &(text, want) in cases {
        let is_right = text.len() <= 4096
            && match read_line(text.as_bytes()) {
                Ok(_) => false,
                Err(bad) => bad.at == want,
            };
        if !is_right {
            return false;
        }
    }
    true
}

#[test]
fn the_first_wrong_word_is_told_of_greetings_and_questions(rt: HostRuntime) {
    let cases = [
        ("", 0),
        (" ", 0),
        ("XYZ A", 0),
        ("hello A KA", 0),
        (" HELLO A KA", 0),
        ("HELLOA KA", 0),
        ("bye", 0),
        ("STATEMENTS", 0),
        ("HELLO", 5),
        ("HELLO ", 6),
        ("HELLO a KA", 6),
        ("HELLO A", 7),
        ("HELLO A ka", 8),
        ("HELLO A  KA", 8),
        ("HELLO A KA ", 11),
        ("HELLO A KA X", 11),
        ("HELLO ABCDEFGHIJKLMNOPQ K", 6),
        ("HELLO A ABCDEFGHIJKLMNOPQ", 8),
        ("BYE ", 4),
        ("BYE X", 4),
        ("STATEMENT ", 10),
        ("STATEMENT A", 10),
        ("NETS", 4),
        ("NETS P\r", 5),
        ("NETS P P", 7),
    ];
    assert!(rt; are_wrong(&cases));
}

#[test]
fn the_first_wrong_word_is_told_of_trades(rt: HostRuntime) {
    let cases = [
        ("TRADE", 5),
        ("TRADE a B P 10 2026-03-01", 6),
        ("TRADE A b P 10 2026-03-01", 8),
        ("TRADE A  B P", 8),
        ("TRADE A B p 10 2026-03-01", 10),
        ("TRADE A B P", 11),
        ("TRADE A B P 0 2026-03-01", 12),
        ("TRADE A B P 01 2026-03-01", 12),
        ("TRADE A B P 1000000000000000001 2026-03-01", 12),
        ("TRADE A B P 10", 14),
        ("TRADE A B P 10 2026-02-30", 15),
        ("TRADE A B P 10 2026-3-01", 15),
        ("TRADE A B P 10 2026-03-01 X", 26),
        ("AFFIRM", 6),
        ("AFFIRM x", 7),
        ("AFFIRM 1000000000000000001", 7),
        ("AFFIRM 1 2", 9),
        ("END", 3),
        ("END -1", 4),
        ("END 1 ", 6),
        ("HOLD 07", 5),
        ("HOLD 7 7", 7),
        ("FREE +7", 5),
        ("FREE 7 7", 7),
    ];
    assert!(rt; are_wrong(&cases));
}

#[test]
fn the_first_wrong_word_is_told_of_limits_and_cycles(rt: HostRuntime) {
    let cases = [
        ("TOL b P out 0 -", 4),
        ("TOL B p out 0 -", 6),
        ("TOL B P", 7),
        ("TOL B P OUT 0 -", 8),
        ("TOL B P in 1000000000000000001 -", 11),
        ("TOL B P out - -", 12),
        ("TOL B P out 0", 13),
        ("TOL B P in 5 --", 13),
        ("TOL B P in 0 1000000000000000001", 13),
        ("TOL B P out 0 x", 14),
        ("TOL B P in 0 - -", 15),
        ("FREEZE", 6),
        ("FREEZE 2023-02-29", 7),
        ("FREEZE 2026-03-01 X", 18),
        ("BEGIN x hybrid", 6),
        ("BEGIN 1", 7),
        ("BEGIN 1 both", 8),
        ("BEGIN 1 loose", 8),
        ("BEGIN 1 FREE", 8),
        ("BEGIN 1 Hybrid", 8),
        ("BEGIN 1 hybrid X", 15),
        ("LIMITS p", 7),
        ("LIMITS P P", 9),
        ("PLAN", 4),
        ("PLAN 1 1", 7),
        ("CANCEL", 6),
        ("CANCEL 1 1", 9),
    ];
    assert!(rt; are_wrong(&cases));
}

#[test]
fn the_first_wrong_word_is_told_of_postings_and_votes(rt: HostRuntime) {
    let cases = [
        ("ROW p A B 5", 4),
        ("ROW P a B 5", 6),
        ("ROW P A b 5", 8),
        ("ROW P A B", 9),
        ("ROW P A B 0", 10),
        ("ROW P A B 5 5", 12),
        ("POT p A 1", 4),
        ("POT P a 1", 6),
        ("POT P A", 7),
        ("POT P A -0", 8),
        ("POT P A 1000001", 8),
        ("POT P A -1000001", 8),
        ("POT P A 1 1", 10),
        ("POST x 1", 5),
        ("POST 1", 6),
        ("POST 1 x", 7),
        ("POST 1 1 1", 9),
        ("PROPOSE  hybrid", 8),
        ("PROPOSE 1", 9),
        ("PROPOSE 1 hybrids", 10),
        ("PROPOSE 1 freed", 10),
        ("ACCEPT 1", 8),
        ("ACCEPT 1 -", 9),
        ("ACCEPT 1 1 1", 11),
        ("DECLINE x 1", 8),
        ("DECLINE 1 1 ", 12),
    ];
    assert!(rt; are_wrong(&cases));
}
