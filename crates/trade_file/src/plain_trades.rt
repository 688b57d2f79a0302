//! The header and the rows of a trade file without quotes and faults, read where they stand, with no record in between.
ghost use Rattle.std.specs.Prelude.{◌≡◌, ◌<◌, IfOk, IfSome, codes};
ghost use Rattle.std.specs.Str.{bytes_eq};
ghost use Rattle.trade_file.specs.TradeDraft.{IsTradeDraft, trades_of_draft};
ghost use Rattle.trade_file.specs.PlainRow.{TakesHeader, ReadsTrade, TakesRow};
ghost use Rattle.trade_file.specs.FoundNames.{AreFound};
ghost use Rattle.units_core.specs.declared.limits.TheConstants.{MOST_PRODUCTS};

use crate::file_trade::FileTrade;
use crate::found_names::TradeNames;
use crate::plain_row::{cut_amount, cut_line};
use crate::trade_draft::TradeDraft;
use command_types::{FileFault, Roster};
use std::alloc::AllocError;
use units_core::{MOST_PRODUCTS, MOST_TRADE_AMOUNT, MemberNo, ProductNo};

/// In place of a record's number, which a row of a piece does not know. It is told nowhere.
const NO_NUMBER: u64 = 0;

/// A trade, and the text behind its row.
#[derive(Clone, Copy)]
struct PlainTrade<'a> {
    trade: FileTrade,
    rest: &'a [u8],
}

fn is_header(line: &[u8]) -> bool
    ensures { result ≡ bytes_eq line.now (codes "seller,buyer,product,amount") }
{
    line == b"seller,buyer,product,amount".as_slice()
}

/// The text behind the header that it starts with.
pub(crate) fn take_header(text: &[u8]) -> Option<&[u8]>
    ensures { IfSome result (λ rest. TakesHeader text.now rest.now) }
{
    let (line, rest) = cut_line(text);
    if is_header(line) { Some(rest) } else { None }
}

// The trade that a text starts with, and the text behind its line. None where that line may have a quote or a fault.
#[inline(always)]
fn read_row<'a>(names: &mut TradeNames, roster: &Roster, text: &'a [u8]) -> Option<PlainTrade<'a>>
    requires { AreFound roster.now names.old }
    ensures found { AreFound roster.now names.new }
    ensures trade { IfSome result (λ row. ReadsTrade roster.now text.now row.trade row.rest.now) }
    ensures product { IfSome result (λ row. row.trade.product < MOST_PRODUCTS) }
{
    let (seller, end) = names.member(roster, text)?;
    let from_buyer = &text[end + 1..];
    let (buyer, end) = names.member(roster, from_buyer)?;
    let from_product = &from_buyer[end + 1..];
    let (product, end) = names.product(roster, from_product)?;
    let Some(cut) = cut_amount(&from_product[end + 1..]) else {
        return None;
    };
    if seller == buyer || product as usize >= MOST_PRODUCTS || cut.0.get() > MOST_TRADE_AMOUNT {
        return None;
    }
    let trade = FileTrade {
        seller: MemberNo(seller),
        buyer: MemberNo(buyer),
        product: ProductNo(product),
        amount: cut.0,
    };
    Some(PlainTrade { trade, rest: cut.1 })
}

/// Takes the row that the text starts with into the draft, and answers the text behind it. None where the row may have a quote
/// or a fault.
#[inline(never)]
pub(crate) fn take_row<'a>(
    draft: &mut TradeDraft,
    names: &mut TradeNames,
    roster: &Roster,
    text: &'a [u8],
) -> Result<Option<&'a [u8]>, AllocError>
    requires draft { IsTradeDraft draft.old }
    requires names { AreFound roster.now names.old }
    ensures names { AreFound roster.now names.new }
    ensures draft { IfOk result (λ rest. IfSome rest (λ _. IsTradeDraft draft.new)) }
    ensures taken { IfOk result (λ rest. IfSome rest (λ rest. TakesRow roster.now text.now (trades_of_draft draft.old) (trades_of_draft draft.new) rest.now)) }
{
    let Some(row) = read_row(names, roster, text) else {
        return Ok(None);
    };
    match draft.add(NO_NUMBER, row.trade) {
        Ok(()) => Ok(Some(row.rest)),
        Err(FileFault::Memory) => Err(AllocError),
        Err(_) => Ok(None),
    }
}
