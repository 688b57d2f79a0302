//! The fields of each command, behind its first word.

ghost use Rattle.std.specs.Prelude.{◌≡◌};
ghost use Rattle.command_types.specs.Grammar.{hello_line, trade_line, trade_terms, numbered_line, version_line, mode_line, product_line, tolerance_line, tolerance_levels, freeze_line, row_line, row_terms, potential_line};
ghost use Rattle.command_text.specs.ReadOf.{read_of};

use crate::bad_line::BadLine;
use crate::fields::{
    ended, next_amount, next_ceiling, next_day, next_level, next_mode, next_name, next_number,
    next_side, next_signed,
};
use crate::words::Words;
use command_types::{Line, Side};
use units_core::Name;

/// `NAME KEY`
pub(crate) fn read_hello(words: &mut Words<'_>) -> Result<Line, BadLine>
    ensures { result ≡ read_of (hello_line words.old) }
{
    let name = next_name(words)?;
    let key = next_name(words)?;
    ended(Line::Hello { name, key }, words)
}

// `AMOUNT DAY`
fn read_terms(
    seller: Name,
    buyer: Name,
    product: Name,
    words: &mut Words<'_>,
) -> Result<Line, BadLine>
    ensures { result ≡ read_of (trade_terms seller buyer product words.old) }
{
    let amount = next_amount(words)?;
    let day = next_day(words)?;
    let line = Line::Trade {
        seller,
        buyer,
        product,
        amount,
        day,
    };
    ended(line, words)
}

/// `SELLER BUYER PRODUCT AMOUNT DAY`
pub(crate) fn read_trade(words: &mut Words<'_>) -> Result<Line, BadLine>
    ensures { result ≡ read_of (trade_line words.old) }
{
    let seller = next_name(words)?;
    let buyer = next_name(words)?;
    let product = next_name(words)?;
    read_terms(seller, buyer, product, words)
}

/// `TRADE`, of `AFFIRM`
pub(crate) fn read_affirm(words: &mut Words<'_>) -> Result<Line, BadLine>
    ensures { result ≡ read_of (numbered_line Line.Affirm words.old) }
{
    let trade = next_number(words)?;
    ended(Line::Affirm { trade }, words)
}

/// `TRADE`, of `END`
pub(crate) fn read_end(words: &mut Words<'_>) -> Result<Line, BadLine>
    ensures { result ≡ read_of (numbered_line Line.End words.old) }
{
    let trade = next_number(words)?;
    ended(Line::End { trade }, words)
}

/// `TRADE`, of `HOLD`
pub(crate) fn read_hold(words: &mut Words<'_>) -> Result<Line, BadLine>
    ensures { result ≡ read_of (numbered_line Line.Hold words.old) }
{
    let trade = next_number(words)?;
    ended(Line::Hold { trade }, words)
}

/// `TRADE`, of `FREE`
pub(crate) fn read_free(words: &mut Words<'_>) -> Result<Line, BadLine>
    ensures { result ≡ read_of (numbered_line Line.Free words.old) }
{
    let trade = next_number(words)?;
    ended(Line::Free { trade }, words)
}

// `FLOOR CEILING`
fn read_levels(
    other: Name,
    product: Name,
    side: Side,
    words: &mut Words<'_>,
) -> Result<Line, BadLine>
    ensures { result ≡ read_of (tolerance_levels other product side words.old) }
{
    let floor = next_level(words)?;
    let ceiling = next_ceiling(words)?;
    let line = Line::Tol {
        other,
        product,
        side,
        floor,
        ceiling,
    };
    ended(line, words)
}

/// `OTHER PRODUCT SIDE FLOOR CEILING`
pub(crate) fn read_tolerance(words: &mut Words<'_>) -> Result<Line, BadLine>
    ensures { result ≡ read_of (tolerance_line words.old) }
{
    let other = next_name(words)?;
    let product = next_name(words)?;
    let side = next_side(words)?;
    read_levels(other, product, side, words)
}

/// `PRODUCT`, of `NETS`
pub(crate) fn read_nets(words: &mut Words<'_>) -> Result<Line, BadLine>
    ensures { result ≡ read_of (product_line Line.Nets words.old) }
{
    let product = next_name(words)?;
    ended(Line::Nets { product }, words)
}

/// `DAY`
pub(crate) fn read_freeze(words: &mut Words<'_>) -> Result<Line, BadLine>
    ensures { result ≡ read_of (freeze_line words.old) }
{
    let day = next_day(words)?;
    ended(Line::Freeze { day }, words)
}

/// `CYCLE MODE`, of `BEGIN`
pub(crate) fn read_begin(words: &mut Words<'_>) -> Result<Line, BadLine>
    ensures { result ≡ read_of (mode_line Line.Begin words.old) }
{
    let cycle = next_number(words)?;
    let mode = next_mode(words)?;
    ended(Line::Begin { cycle, mode }, words)
}

/// `PRODUCT`, of `LIMITS`
pub(crate) fn read_limits(words: &mut Words<'_>) -> Result<Line, BadLine>
    ensures { result ≡ read_of (product_line Line.Limits words.old) }
{
    let product = next_name(words)?;
    ended(Line::Limits { product }, words)
}

// `BUYER AMOUNT`
fn read_row_terms(product: Name, seller: Name, words: &mut Words<'_>) -> Result<Line, BadLine>
    ensures { result ≡ read_of (row_terms product seller words.old) }
{
    let buyer = next_name(words)?;
    let amount = next_amount(words)?;
    let line = Line::Row {
        product,
        seller,
        buyer,
        amount,
    };
    ended(line, words)
}

/// `PRODUCT SELLER BUYER AMOUNT`
pub(crate) fn read_row(words: &mut Words<'_>) -> Result<Line, BadLine>
    ensures { result ≡ read_of (row_line words.old) }
{
    let product = next_name(words)?;
    let seller = next_name(words)?;
    read_row_terms(product, seller, words)
}

/// `PRODUCT MEMBER VALUE`
pub(crate) fn read_potential(words: &mut Words<'_>) -> Result<Line, BadLine>
    ensures { result ≡ read_of (potential_line words.old) }
{
    let product = next_name(words)?;
    let member = next_name(words)?;
    let value = next_signed(words)?;
    let line = Line::Pot {
        product,
        member,
        value,
    };
    ended(line, words)
}

/// `CYCLE VERSION`, of `POST`
pub(crate) fn read_post(words: &mut Words<'_>) -> Result<Line, BadLine>
    ensures { result ≡ read_of (version_line Line.Post words.old) }
{
    let cycle = next_number(words)?;
    let version = next_number(words)?;
    ended(Line::Post { cycle, version }, words)
}

/// `CYCLE MODE`, of `PROPOSE`
pub(crate) fn read_propose(words: &mut Words<'_>) -> Result<Line, BadLine>
    ensures { result ≡ read_of (mode_line Line.Propose words.old) }
{
    let cycle = next_number(words)?;
    let mode = next_mode(words)?;
    ended(Line::Propose { cycle, mode }, words)
}

/// `POSITION`, of `NEXT`
pub(crate) fn read_next(words: &mut Words<'_>) -> Result<Line, BadLine>
    ensures { result ≡ read_of (numbered_line Line.Next words.old) }
{
    let position = next_number(words)?;
    ended(Line::Next { position }, words)
}

/// `CYCLE`, of `PLAN`
pub(crate) fn read_plan(words: &mut Words<'_>) -> Result<Line, BadLine>
    ensures { result ≡ read_of (numbered_line Line.Plan words.old) }
{
    let cycle = next_number(words)?;
    ended(Line::Plan { cycle }, words)
}

/// `CYCLE`, of `PROOF`
pub(crate) fn read_proof(words: &mut Words<'_>) -> Result<Line, BadLine>
    ensures { result ≡ read_of (numbered_line Line.Proof words.old) }
{
    let cycle = next_number(words)?;
    ended(Line::Proof { cycle }, words)
}

/// `CYCLE VERSION`, of `ACCEPT`
pub(crate) fn read_accept(words: &mut Words<'_>) -> Result<Line, BadLine>
    ensures { result ≡ read_of (version_line Line.Accept words.old) }
{
    let cycle = next_number(words)?;
    let version = next_number(words)?;
    ended(Line::Accept { cycle, version }, words)
}

/// `CYCLE VERSION`, of `DECLINE`
pub(crate) fn read_decline(words: &mut Words<'_>) -> Result<Line, BadLine>
    ensures { result ≡ read_of (version_line Line.Decline words.old) }
{
    let cycle = next_number(words)?;
    let version = next_number(words)?;
    ended(Line::Decline { cycle, version }, words)
}

/// `CYCLE`, of `CANCEL`
pub(crate) fn read_cancel(words: &mut Words<'_>) -> Result<Line, BadLine>
    ensures { result ≡ read_of (numbered_line Line.Cancel words.old) }
{
    let cycle = next_number(words)?;
    ended(Line::Cancel { cycle }, words)
}
