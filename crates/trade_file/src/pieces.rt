//! Pieces of a trade file without quotes and faults, each of which a worker reads by itself. It has the whole rest of the
//! text from a line feed on, and reads rows until no more is left than the next piece begins with.

ghost use Rattle.std.specs.Prelude.{◌≡◌, ◌≤◌, All, IfOk, IfSome, length};
ghost use Rattle.units_core.specs.declared.limits.TheConstants.{MOST_WORKERS};

use crate::found_names::TradeNames;
use crate::plain_row::skip_line_ends;
use crate::plain_trades::take_row;
use crate::trade_draft::TradeDraft;
use command_types::Roster;
use std::alloc::{AllocError, Global};
use std::thread;
use std::thread::Threads;
use units_core::MOST_FILE_TRADES;

/// A piece has no fewer bytes than this.
const LEAST_PIECE: usize = 16_384;

/// The trades of rows that were read, and the text behind them.
#[derive(Drop)]
pub(crate) struct PlainRows<'a> {
    pub draft: TradeDraft,
    pub rest: &'a [u8],
}

/// What one worker reads, and what it has found.
#[derive(Drop)]
pub(crate) struct Piece<'a> {
    /// From the piece's first row to the file's end.
    pub text: &'a [u8],
    /// How many bytes the next piece's text has.
    pub left: usize,
    /// None where a row may have a quote or a fault.
    pub found: Result<Option<PlainRows<'a>>, AllocError>,
}

/// Who reads: from 1 to 64 workers in threads of a runtime.
#[derive(Drop)]
pub struct Readers<'a, R: Threads + Sync> {
    rt: &'a R,
    count: u32,
    ghost few: { (1 ≤ count) × (count ≤ MOST_WORKERS) },
}

ghost use Rattle.trade_file.specs.TradeDraft.{IsTradeDraft, trades_of_draft};
ghost use Rattle.trade_file.specs.Pieces.{ReadsRows, HasRead};

// The rows of a text until no more than this is left. None where one may have a quote or a fault.
fn read_rows<'a>(
    alloc: Global,
    roster: &Roster,
    text: &'a [u8],
    left: usize,
) -> Result<Option<PlainRows<'a>>, AllocError>
    ensures draft { IfOk result (λ found. IfSome found (λ found. IsTradeDraft found.draft)) }
    ensures rows { IfOk result (λ found. IfSome found (λ found. ReadsRows roster.now text.now (trades_of_draft found.draft) found.rest.now)) }
{
    let mut rest = text;
    let mut draft = TradeDraft::new(alloc);
    let mut names = TradeNames::new();
    for _ in 0..MOST_FILE_TRADES + 1 {
        if rest.len() <= left {
            return Ok(Some(PlainRows { draft, rest }));
        }
        let Some(behind) = take_row(&mut draft, &mut names, roster, rest)? else {
            return Ok(None);
        };
        rest = skip_line_ends(behind);
    }
    Ok(None)
}

// Reads a piece.
fn read_piece(alloc: Global, roster: &Roster, piece: &mut Piece<'_>)
    ensures { HasRead roster.now piece.new }
{
    piece.found = read_rows(alloc, roster, piece.text, piece.left);
}

// What stands behind the first line feed from a place on.
fn next_line(text: &[u8], from: usize) -> &[u8] {
    for at in from..text.len() {
        if text[at] == b'\n' {
            return &text[at + 1..];
        }
    }
    &text[text.len()..]
}

// A text in so many pieces, or fewer where it is short, with the last one first. No row has been read.
fn cut_pieces<'a>(alloc: Global, text: &'a [u8], count: u32) -> Result<Vec<Piece<'a>>, AllocError> {
    let count = (text.len() / LEAST_PIECE + 1).min(count as usize);
    let mut pieces = Vec::with_capacity(alloc, count)?;
    let mut left = 0;
    for behind in 1..=count {
        let number = count - behind;
        let mut own = text;
        if number > 0 {
            own = skip_line_ends(next_line(text, text.len() / count * number));
        }
        pieces.push(Piece {
            text: own,
            left,
            found: Ok(None),
        })?;
        left = own.len();
    }
    Ok(pieces)
}

impl<'a, R: Threads + Sync> Readers<'a, R> {
    /// So many workers.
    pub fn new(rt: &'a R, count: u32) -> Readers<'a, R>
        requires { (1 ≤ count) × (count ≤ MOST_WORKERS) }
    {
        Readers { rt, count }
    }

    // They read the pieces, beside one another.
    fn read_all(&self, alloc: Global, roster: &Roster, pieces: &mut [Piece<'_>])
        ensures { All (HasRead roster.now) pieces.new }
    {
        thread::for_each_mut(
            self.rt,
            pieces,
            64,
            &|_, piece: &mut Piece<'_>|
                ensures { HasRead roster.entry.now piece.new }
            { read_piece(alloc, roster, piece) },
        );
    }

    /// The pieces of a text, with the last one first, which were read beside one another: one for each reader, or fewer where
    /// the text is short. The only error is want of memory.
    pub(crate) fn read<'t>(
        &self,
        alloc: Global,
        roster: &Roster,
        text: &'t [u8],
    ) -> Result<Vec<Piece<'t>>, AllocError>
        ensures { IfOk result (λ pieces. All (HasRead roster.now) pieces.items) }
    {
        let mut pieces = cut_pieces(alloc, text, self.count)?;
        self.read_all(alloc, roster, &mut pieces);
        Ok(pieces)
    }
}
