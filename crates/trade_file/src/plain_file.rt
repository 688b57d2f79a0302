//! Reading a trade file without quotes and faults where it stands, by workers beside one another. Whether their pieces meet is
//! tested where they are put together: where they do not, or one found no rows, another reading has to tell what the file says.

ghost use Rattle.std.specs.Prelude.{◌≡◌, Ok, IfOk, IfSome};
ghost use Rattle.std.specs.Str.{bytes_eq};
ghost use Rattle.command_types.specs.Roster.{Rows};
ghost use Rattle.trade_file.specs.RosterFile.{records_of};
ghost use Rattle.trade_file.specs.TradeFile.{trades_of};
ghost use Rattle.trade_file.specs.TradeDraft.{IsTradeDraft, trades_of_draft};
ghost use Rattle.trade_file.specs.Pieces.{HasDraft, HasRows, TakesRows};

use crate::pieces::{Piece, Readers};
use crate::plain_row::{skip_line_ends, skip_mark};
use crate::plain_trades::take_header;
use crate::trade_draft::TradeDraft;
use command_types::Roster;
use std::alloc::{AllocError, Global};
use std::thread::Threads;

fn is_same(front: &[u8], back: &[u8]) -> bool
    ensures { result ≡ bytes_eq front.now back.now }
{
    front == back
}

// Puts the trades of a piece behind those of the draft, and answers what is left. None where the text is not the piece's, or
// the piece or all of these trades may have a fault.
fn take_piece<'a>(
    draft: &mut TradeDraft,
    text: &[u8],
    piece: Piece<'a>,
) -> Result<Option<&'a [u8]>, AllocError>
    requires draft { IsTradeDraft draft.old }
    requires piece { HasDraft piece }
    ensures draft { IfOk result (λ rest. IfSome rest (λ _. IsTradeDraft draft.new)) }
    ensures rows { (rows : Rows) → HasRows rows piece.entry → IfOk result (λ rest. IfSome rest (λ rest. TakesRows rows text.now (trades_of_draft draft.old) (trades_of_draft draft.new) rest.now)) }
{
    let Piece {
        text: own,
        left: _,
        found,
    } = piece;
    if !is_same(text, own) {
        return Ok(None);
    }
    let Some(found) = found? else {
        return Ok(None);
    };
    let fits = draft.append(found.draft)?;
    if fits { Ok(Some(found.rest)) } else { Ok(None) }
}

/// The draft of a file that has no quotes and no fault, read by these. None where it may have one; the only error is want of
/// memory.
pub(crate) fn read_plain<R: Threads + Sync>(
    alloc: Global,
    bytes: &[u8],
    roster: &Roster,
    readers: &Readers<'_, R>,
) -> Result<Option<TradeDraft>, AllocError>
    ensures { IfOk result (λ draft. IfSome draft (λ draft. trades_of roster.now (records_of bytes.now) ≡ Ok (trades_of_draft draft))) }
{
    let Some(behind) = take_header(skip_line_ends(skip_mark(bytes))) else {
        return Ok(None);
    };
    let mut rest = skip_line_ends(behind);
    let mut pieces = readers.read(alloc, roster, rest)?;
    let mut draft = TradeDraft::new(alloc);
    while let Some(piece) = pieces.pop() {
        let Some(left) = take_piece(&mut draft, rest, piece)? else {
            return Ok(None);
        };
        rest = left;
    }
    if rest.is_empty() {
        Ok(Some(draft))
    } else {
        Ok(None)
    }
}
