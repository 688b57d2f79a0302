//! The rows of a trade file, each by itself.
ghost use Rattle.std.specs.Prelude.{◌≡◌, ◌≢◌, ◌<◌, ◌∷◌, [], IfOk, IfSome, IfNone, length};
ghost use Rattle.csv.specs.Records.{fields_of};
ghost use Rattle.units_core.specs.Number.{amount_of};
ghost use Rattle.trade_file.specs.TradeFile.{is_trade_header, member_of, product_of, with_amount, between, trade_of};
ghost use Rattle.units_core.specs.declared.limits.TheConstants.{MOST_PRODUCTS};

use crate::file_trade::FileTrade;
use command_types::{FileFault, Roster};
use csv::ByteRecord;
use units_core::{Amount, MOST_TRADE_AMOUNT, MemberNo, ProductNo};

fn read_amount(
    row: u64,
    seller: MemberNo,
    buyer: MemberNo,
    product: ProductNo,
    text: &[u8],
) -> Result<FileTrade, FileFault>
    ensures trade { result ≡ with_amount row seller buyer product (amount_of text.now) }
    ensures product { IfOk result (λ trade. trade.product ≡ product) }
{
    let Ok(amount) = Amount::read(text) else {
        return Err(FileFault::BadAmount { row });
    };
    if amount.get() > MOST_TRADE_AMOUNT {
        return Err(FileFault::BadAmount { row });
    }
    Ok(FileTrade {
        seller,
        buyer,
        product,
        amount,
    })
}

fn read_fields(
    roster: &Roster,
    row: u64,
    seller: &[u8],
    buyer: &[u8],
    product: &[u8],
    amount: &[u8],
) -> Result<FileTrade, FileFault>
    ensures trade { result ≡ trade_of roster.now row (seller.now ∷ buyer.now ∷ product.now ∷ amount.now ∷ []) }
    ensures product { IfOk result (λ trade. trade.product < MOST_PRODUCTS) }
{
    let Some(seller) = roster.member_spelt(seller) else {
        return Err(FileFault::UnknownName { row });
    };
    let Some(buyer) = roster.member_spelt(buyer) else {
        return Err(FileFault::UnknownName { row });
    };
    let Some(product) = roster.product_spelt(product) else {
        return Err(FileFault::UnknownName { row });
    };
    if seller.0 == buyer.0 {
        return Err(FileFault::SameParty { row });
    }
    read_amount(row, seller, buyer, product, amount)
}

// The fields of a record that has four.
fn four_fields(record: &ByteRecord) -> Option<(&[u8], &[u8], &[u8], &[u8])>
    ensures some { IfSome result (λ t. fields_of record.now ≡ t.0.now ∷ t.1.now ∷ t.2.now ∷ t.3.now ∷ []) }
    ensures none { IfNone result (length (fields_of record.now) ≢ 4) }
{
    if record.len() != 4 {
        return None;
    }
    let Some(first) = record.get(0) else {
        return None;
    };
    let Some(second) = record.get(1) else {
        return None;
    };
    let Some(third) = record.get(2) else {
        return None;
    };
    let Some(fourth) = record.get(3) else {
        return None;
    };
    Some((first, second, third, fourth))
}

fn are_header(first: &[u8], second: &[u8], third: &[u8], fourth: &[u8]) -> bool
    ensures { result ≡ is_trade_header (first.now ∷ second.now ∷ third.now ∷ fourth.now ∷ []) }
{
    first == b"seller".as_slice()
        && second == b"buyer".as_slice()
        && third == b"product".as_slice()
        && fourth == b"amount".as_slice()
}

/// Whether the record is a trade file's first one.
#[tactic(auto, using(crate::proofs::TradeFieldFacts::no_trade_header))]
pub(crate) fn reads_header(record: &ByteRecord) -> bool
    ensures { result ≡ is_trade_header (fields_of record.now) }
{
    match four_fields(record) {
        Some((first, second, third, fourth)) => are_header(first, second, third, fourth),
        None => false,
    }
}

/// The trade that the record with this number writes, or what is wrong with it.
#[tactic(auto, using(crate::proofs::TradeFieldFacts::no_trade))]
pub(crate) fn read_row(
    roster: &Roster,
    row: u64,
    record: &ByteRecord,
) -> Result<FileTrade, FileFault>
    ensures trade { result ≡ trade_of roster.now row (fields_of record.now) }
    ensures product { IfOk result (λ trade. trade.product < MOST_PRODUCTS) }
{
    match four_fields(record) {
        Some((seller, buyer, product, amount)) => {
            read_fields(roster, row, seller, buyer, product, amount)
        }
        None => Err(FileFault::Columns { row }),
    }
}
