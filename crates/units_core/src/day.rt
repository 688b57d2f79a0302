//! Civil days, as the calendar has them.
ghost use Rattle.std.specs.Prelude.{◌≡◌, ◌≤◌, ◌<◌, ◌+◌, ◌*◌, pos, if◌then◌else◌, Some, None, IsTrue, length, slice_index};
ghost use Rattle.units_core.specs.Number.{is_digit};

use jiff::civil::{self, Date};
use std::marker::Model;

/// A civil day of the years 0000 to 9999. Contracts see it as its three numbers.
#[derive(Clone, Copy, PartialEq, Eq)]
pub struct Day {
    year: u16,
    month: u8,
    day: u8,
}

impl Model for Day {
    ghost use Rattle.std.specs.Prelude.{IsTrue, ◌≤◌};
    ghost use Rattle.units_core.specs.Day.{DayParts, is_civil};

    ghost Value = { DayParts };

    ghost view = { λ d. record { year = d.year; month = d.month; day = d.day } };

    ghost invariant = { λ d. (d.year ≤ 9999) × IsTrue (is_civil (record { year = d.year; month = d.month; day = d.day })) };

    ghost inverse = { λ d. record { year = d.year; month = d.month; day = d.day } };
}

ghost use Rattle.units_core.specs.Day.{DayParts, digit_at, is_civil, is_day_form, day_parts, day_numbered, day_of, day_text, is_before};

fn is_form(text: &[u8]) -> bool
    ensures { result ≡ is_day_form text.now }
{
    text.len() == 10
        && text[0].is_ascii_digit()
        && text[1].is_ascii_digit()
        && text[2].is_ascii_digit()
        && text[3].is_ascii_digit()
        && text[4] == b'-'
        && text[5].is_ascii_digit()
        && text[6].is_ascii_digit()
        && text[7] == b'-'
        && text[8].is_ascii_digit()
        && text[9].is_ascii_digit()
}

// Whether the calendar has the day.
fn exists(year: u16, month: u8, day: u8) -> bool
    requires year { year ≤ 9999 }
    requires month { month ≤ 99 }
    requires day { day ≤ 99 }
    ensures { result ≡ is_civil (record { year = year; month = month; day = day }) }
{
    Date::new(year as i16, month as i8, day as i8).is_ok()
}

// A number of two digits.
fn two_digits(text: &[u8], at: usize) -> u8
    requires place { at + 1 < length text.now }
    requires first { slice_index text.now at ≤ 57 }
    requires second { slice_index text.now (at + 1) ≤ 57 }
    ensures value { result ≡ 10 * digit_at text.now at + digit_at text.now (at + 1) }
    ensures small { result ≤ 99 }
{
    10 * text[at].saturating_sub(b'0') + text[at + 1].saturating_sub(b'0')
}

impl Day {
    /// The day that a text names, exactly where the text is `YYYY-MM-DD` and the calendar has the day.
    pub fn read(text: &[u8]) -> Option<Day>
        ensures { result ≡ day_of text.now }
    {
        let in_form = is_form(text);
        if !in_form {
            return None;
        }
        let year = 100 * u16::from(two_digits(text, 0)) + u16::from(two_digits(text, 2));
        let month = two_digits(text, 5);
        let day = two_digits(text, 8);
        let found = exists(year, month, day);
        if !found {
            return None;
        }
        Some(Day { year, month, day })
    }

    /// The day of these numbers, exactly where the year is at most 9999 and the calendar has the day.
    pub fn new(year: u16, month: u8, day: u8) -> Option<Day>
        ensures { result ≡ day_numbered year month day }
    {
        if year > 9999 || month > 12 || day > 31 {
            return None;
        }
        let in_calendar = exists(year, month, day);
        if !in_calendar {
            return None;
        }
        Some(Day { year, month, day })
    }

    /// The year, from 0 to 9999.
    pub fn year(self) -> u16
        ensures value { result ≡ self.year }
        ensures most { result ≤ 9999 }
        ensures civil { IsTrue (is_civil self) }
    {
        self.year
    }

    /// The month, from 1 to 12.
    pub fn month(self) -> u8
        ensures value { result ≡ self.month }
        ensures least { 1 ≤ result }
        ensures most { result ≤ 12 }
    {
        self.month
    }

    /// The day of the month, from 1 to 31.
    pub fn day(self) -> u8
        ensures value { result ≡ self.day }
        ensures least { 1 ≤ result }
        ensures most { result ≤ 31 }
    {
        self.day
    }

    /// The text of the day, `YYYY-MM-DD`.
    pub fn text(self) -> [u8; 10]
        ensures text { result ≡ day_text self }
        ensures names_it { day_of result ≡ Some self }
    {
        let century = (self.year / 100) as u8;
        let of_century = (self.year % 100) as u8;
        [
            b'0' + century / 10,
            b'0' + century % 10,
            b'0' + of_century / 10,
            b'0' + of_century % 10,
            b'-',
            b'0' + self.month / 10,
            b'0' + self.month % 10,
            b'-',
            b'0' + self.day / 10,
            b'0' + self.day % 10,
        ]
    }

    // The date of the calendar.
    fn date(self) -> Date
        ensures year { result.year ≡ pos self.year }
        ensures month { result.month ≡ self.month }
        ensures day { result.day ≡ self.day }
    {
        civil::date(self.year as i16, self.month as i8, self.day as i8)
    }

    /// Whether the day comes before another, in the calendar's order.
    pub fn comes_before(self, other: Day) -> bool
        ensures { result ≡ is_before self other }
    {
        self.date() < other.date()
    }
}
