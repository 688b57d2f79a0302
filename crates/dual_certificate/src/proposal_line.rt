//! The lines of a proposal, each by itself.
ghost use Rattle.std.specs.Prelude.{◌≡◌};
ghost use Rattle.network_laws.specs.Solutions.{IsPotential};
ghost use Rattle.command_types.specs.Grammar.{name_word, amount_word, number_word, signed_word};
ghost use Rattle.dual_certificate.specs.ProposalLine.{next, ended, taken_of, product_line, product_figures, row_line, pot_line, bound_line, end_line, line_by, line_of};

use crate::pieces::Words;
use std::marker::Model;
use units_core::{Amount, MOST_NUMBER, Name, read_number, read_signed};

/// The figures of a product's original network, and the gross of its least one, as they are written.
#[derive(Clone, Copy)]
pub(crate) struct Figures {
    pub(crate) gross: u64,
    pub(crate) least: u64,
    pub(crate) floor_m: u64,
    pub(crate) bilateral: u64,
}

/// A potential, from -1,000,000 to 1,000,000. Contracts see it as that number.
#[derive(Clone, Copy)]
pub(crate) struct Potential {
    value: i32,
}

impl Model for Potential {
    ghost use Rattle.std.specs.Prelude.{ℤ};
    ghost use Rattle.network_laws.specs.Solutions.{IsPotential};

    ghost Value = { ℤ };

    ghost view = { λ p. p.value };

    ghost invariant = { λ p. IsPotential p.value };

    ghost inverse = { λ z. record { value = z } };
}

impl Potential {
    /// The number.
    pub(crate) fn get(self) -> i32
        ensures value { result ≡ self }
        ensures range { IsPotential result }
    {
        self.value
    }
}

/// What a line says.
#[derive(Clone, Copy)]
pub(crate) enum ProposalLine {
    Product {
        name: Name,
        figures: Figures,
    },
    Row {
        seller: Name,
        buyer: Name,
        amount: Amount,
    },
    Pot {
        member: Name,
        value: Potential,
    },
    Bound {
        value: u64,
    },
    End {
        count: u64,
    },
}

// An amount, from 1 to 10^18.
fn amount_of(word: &[u8]) -> Option<Amount>
    ensures { result ≡ amount_word word.now }
{
    Amount::read(word).ok()
}

// A number, from 0 to 10^18.
fn number_of(word: &[u8]) -> Option<u64>
    ensures { result ≡ number_word word.now }
{
    read_number(word, MOST_NUMBER).ok()
}

// A potential, from -1,000,000 to 1,000,000.
#[tactic(auto, using(crate::proofs::RangeFacts::signed_range))]
fn potential_of(word: &[u8]) -> Option<Potential>
    ensures { result ≡ signed_word word.now }
{
    match read_signed(word) {
        Ok(value) => Some(Potential { value }),
        Err(_) => None,
    }
}

// The next word as a name.
fn next_name(words: &mut Words<'_>) -> Option<Name>
    ensures { taken_of result words.new ≡ next name_word words.old }
{
    match words.next_word() {
        None => None,
        Some(word) => Name::read(word),
    }
}

// The next word as an amount.
fn next_amount(words: &mut Words<'_>) -> Option<Amount>
    ensures { taken_of result words.new ≡ next amount_word words.old }
{
    match words.next_word() {
        None => None,
        Some(word) => amount_of(word),
    }
}

// The next word as a number.
fn next_number(words: &mut Words<'_>) -> Option<u64>
    ensures { taken_of result words.new ≡ next number_word words.old }
{
    match words.next_word() {
        None => None,
        Some(word) => number_of(word),
    }
}

// The next word as a potential.
fn next_potential(words: &mut Words<'_>) -> Option<Potential>
    ensures { taken_of result words.new ≡ next signed_word words.old }
{
    match words.next_word() {
        None => None,
        Some(word) => potential_of(word),
    }
}

// The line, if no word is left.
fn ended(line: ProposalLine, words: &mut Words<'_>) -> Option<ProposalLine>
    ensures { result ≡ ended line words.old }
{
    match words.next_word() {
        None => Some(line),
        Some(_) => None,
    }
}

// `GROSS LEAST M BILATERAL`
fn read_figures(name: Name, words: &mut Words<'_>) -> Option<ProposalLine>
    ensures { result ≡ product_figures name words.old }
{
    let gross = next_number(words)?;
    let least = next_number(words)?;
    let floor_m = next_number(words)?;
    let bilateral = next_number(words)?;
    let figures = Figures {
        gross,
        least,
        floor_m,
        bilateral,
    };
    ended(ProposalLine::Product { name, figures }, words)
}

// `NAME GROSS LEAST M BILATERAL`
fn read_product(words: &mut Words<'_>) -> Option<ProposalLine>
    ensures { result ≡ product_line words.old }
{
    let name = next_name(words)?;
    read_figures(name, words)
}

// `SELLER BUYER AMOUNT`
fn read_row(words: &mut Words<'_>) -> Option<ProposalLine>
    ensures { result ≡ row_line words.old }
{
    let seller = next_name(words)?;
    let buyer = next_name(words)?;
    let amount = next_amount(words)?;
    let line = ProposalLine::Row {
        seller,
        buyer,
        amount,
    };
    ended(line, words)
}

// `MEMBER VALUE`
fn read_pot(words: &mut Words<'_>) -> Option<ProposalLine>
    ensures { result ≡ pot_line words.old }
{
    let member = next_name(words)?;
    let value = next_potential(words)?;
    ended(ProposalLine::Pot { member, value }, words)
}

// `VALUE`
fn read_bound(words: &mut Words<'_>) -> Option<ProposalLine>
    ensures { result ≡ bound_line words.old }
{
    let value = next_number(words)?;
    ended(ProposalLine::Bound { value }, words)
}

// `COUNT`
fn read_end(words: &mut Words<'_>) -> Option<ProposalLine>
    ensures { result ≡ end_line words.old }
{
    let count = next_number(words)?;
    ended(ProposalLine::End { count }, words)
}

fn read_by(verb: &[u8], words: &mut Words<'_>) -> Option<ProposalLine>
    ensures { result ≡ line_by verb.now words.old }
{
    if verb == b"product".as_slice() {
        return read_product(words);
    }
    if verb == b"row".as_slice() {
        return read_row(words);
    }
    if verb == b"pot".as_slice() {
        return read_pot(words);
    }
    if verb == b"bound".as_slice() {
        return read_bound(words);
    }
    if verb == b"end".as_slice() {
        return read_end(words);
    }
    None
}

/// What a line says, without its line feed; none exactly where it has no form of a proposal's lines.
pub(crate) fn read_line(line: &[u8]) -> Option<ProposalLine>
    ensures { result ≡ line_of line.now }
{
    let mut words = Words::new(line);
    match words.next_word() {
        None => None,
        Some(verb) => read_by(verb, &mut words),
    }
}
