//! What rows of a trade file are cut by: commas, line ends and digits alone. Quotes mean nothing here: who takes a row has
//! to see that its names are such as have none.
ghost use Rattle.std.specs.Prelude.{◌≡◌, ◌<◌, ◌≤◌, ℕ, IfSome, true, length, take, get_or};
ghost use Rattle.csv.specs.Reading.{is_bom, strip_bom};
ghost use Rattle.units_core.specs.Number.{is_digit, value_of};
ghost use Rattle.trade_file.specs.PlainRow.{comma, is_line_end, first_record, IsLine, EndsInAmount};

use units_core::Amount;

fn ends_line(byte: u8) -> bool
    ensures { result ≡ is_line_end byte }
{
    byte == b'\r' || byte == b'\n'
}

/// Where the first comma stands.
#[inline(never)]
pub(crate) fn comma_place(text: &[u8]) -> Option<usize>
    ensures found { IfSome result (λ at. get_or text.now at 0 ≡ comma) }
    ensures within { IfSome result (λ at. at < length text.now) }
{
    for at in 0..text.len() {
        if text[at] == b',' {
            return Some(at);
        }
    }
    None
}

/// What stands before the first line end, and behind it.
pub(crate) fn cut_line(text: &[u8]) -> (&[u8], &[u8])
    ensures { IsLine text.now result.0.now result.1.now }
{
    for at in 0..text.len() {
        if ends_line(text[at]) {
            return (&text[..at], &text[at + 1..]);
        }
    }
    (text, &text[text.len()..])
}

// The number that digits at the front of a text write, and how many they are: sixteen at most.
fn read_digits(text: &[u8]) -> (u64, usize)
    ensures within { result.1 ≤ length text.now }
    ensures value { result.0 ≡ value_of (take result.1 text.now) }
    ensures digits { (k : ℕ) → k < result.1 → is_digit (get_or text.now k 0) ≡ true }
{
    let most = text.len().min(16);
    let mut value = 0u64;
    for at in 0..most {
        let byte = text[at];
        if !byte.is_ascii_digit() {
            return (value, at);
        }
        value = value * 10 + u64::from(byte - b'0');
    }
    (value, most)
}

/// The amount that is the rest of a line, and the text behind that line.
#[inline(always)]
pub(crate) fn cut_amount(text: &[u8]) -> Option<(Amount, &[u8])>
    ensures { IfSome result (λ cut. EndsInAmount text.now cut.0 cut.1.now) }
{
    let digits = read_digits(text);
    let size = digits.1;
    if size == 0 || text[0] == b'0' {
        return None;
    }
    let Some(amount) = Amount::new(digits.0) else {
        return None;
    };
    if size == text.len() {
        return Some((amount, &text[size..]));
    }
    if ends_line(text[size]) {
        return Some((amount, &text[size + 1..]));
    }
    None
}

/// The text behind the line ends that it starts with. They belong to no record.
pub(crate) fn skip_line_ends(text: &[u8]) -> &[u8]
    ensures { first_record result.now ≡ first_record text.now }
{
    for at in 0..text.len() {
        if !ends_line(text[at]) {
            return &text[at..];
        }
    }
    &text[text.len()..]
}

fn is_mark(first: u8, second: u8, third: u8) -> bool
    ensures { result ≡ is_bom first second third }
{
    first == 0xef && second == 0xbb && third == 0xbf
}

/// The text behind its byte-order mark, if it starts with one.
pub(crate) fn skip_mark(text: &[u8]) -> &[u8]
    ensures { result.now ≡ strip_bom text.now }
{
    if text.len() < 3 {
        return text;
    }
    if is_mark(text[0], text[1], text[2]) {
        return &text[3..];
    }
    text
}
