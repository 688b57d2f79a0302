//! The rows of a roster file, each by itself.
ghost use Rattle.std.specs.Prelude.{◌≡◌, ◌≢◌, ◌∷◌, [], Some, IfSome, IfNone, length};
ghost use Rattle.csv.specs.Records.{fields_of};
ghost use Rattle.trade_file.specs.declared.roster_row.Kind.TheVariants as kind;
ghost use Rattle.trade_file.specs.RosterRow.{is_header, kind_of, row_of_kind, row_of};

use command_types::{FileFault, MemberRow, OperatorRow, ProductRow, Role};
use csv::ByteRecord;
use units_core::{Day, Name};

/// What the word in a record's second field stands for.
#[derive(Clone, Copy)]
pub(crate) enum Kind {
    Member(Role),
    Operator,
    Product,
}

/// The row that a record writes.
#[derive(Clone, Copy)]
pub(crate) enum RosterRow {
    Member(MemberRow),
    Operator(OperatorRow),
    Product(ProductRow),
}

fn read_kind(word: &[u8]) -> Option<Kind>
    ensures { result ≡ kind_of word.now }
{
    if word == b"dealer".as_slice() {
        Some(Kind::Member(Role::Dealer))
    } else if word == b"customer".as_slice() {
        Some(Kind::Member(Role::Customer))
    } else if word == b"operator".as_slice() {
        Some(Kind::Operator)
    } else if word == b"product".as_slice() {
        Some(Kind::Product)
    } else {
        None
    }
}

fn read_product(row: u64, name: Name, last: &[u8]) -> Result<RosterRow, FileFault>
    ensures { result ≡ row_of_kind row (Some kind.Product) name last.now }
{
    match Day::read(last) {
        Some(maturity) => Ok(RosterRow::Product(ProductRow { name, maturity })),
        None => Err(FileFault::BadDay { row }),
    }
}

fn read_member(row: u64, name: Name, role: Role, last: &[u8]) -> Result<RosterRow, FileFault>
    ensures { result ≡ row_of_kind row (Some (kind.Member role)) name last.now }
{
    match Name::read(last) {
        Some(key) => Ok(RosterRow::Member(MemberRow { name, role, key })),
        None => Err(FileFault::BadName { row }),
    }
}

fn read_operator(row: u64, name: Name, last: &[u8]) -> Result<RosterRow, FileFault>
    ensures { result ≡ row_of_kind row (Some kind.Operator) name last.now }
{
    match Name::read(last) {
        Some(key) => Ok(RosterRow::Operator(OperatorRow { name, key })),
        None => Err(FileFault::BadName { row }),
    }
}

fn read_by_kind(row: u64, name: Name, word: &[u8], last: &[u8]) -> Result<RosterRow, FileFault>
    ensures { result ≡ row_of_kind row (kind_of word.now) name last.now }
{
    match read_kind(word) {
        None => Err(FileFault::BadRole { row }),
        Some(Kind::Member(role)) => read_member(row, name, role, last),
        Some(Kind::Operator) => read_operator(row, name, last),
        Some(Kind::Product) => read_product(row, name, last),
    }
}

fn read_fields(row: u64, name: &[u8], word: &[u8], last: &[u8]) -> Result<RosterRow, FileFault>
    ensures { result ≡ row_of row (name.now ∷ word.now ∷ last.now ∷ []) }
{
    match Name::read(name) {
        Some(name) => read_by_kind(row, name, word, last),
        None => Err(FileFault::BadName { row }),
    }
}

// The fields of a record that has three.
fn three_fields(record: &ByteRecord) -> Option<(&[u8], &[u8], &[u8])>
    ensures some { IfSome result (λ t. fields_of record.now ≡ t.0.now ∷ t.1.now ∷ t.2.now ∷ []) }
    ensures none { IfNone result (length (fields_of record.now) ≢ 3) }
{
    if record.len() != 3 {
        return None;
    }
    let Some(first) = record.get(0) else {
        return None;
    };
    let Some(second) = record.get(1) else {
        return None;
    };
    let Some(third) = record.get(2) else {
        return None;
    };
    Some((first, second, third))
}

fn are_header(first: &[u8], second: &[u8], third: &[u8]) -> bool
    ensures { result ≡ is_header (first.now ∷ second.now ∷ third.now ∷ []) }
{
    first == b"name".as_slice() && second == b"role".as_slice() && third == b"key".as_slice()
}

/// Whether the record is a roster's first one.
#[tactic(auto, using(crate::proofs::FieldFacts::no_header))]
pub(crate) fn reads_header(record: &ByteRecord) -> bool
    ensures { result ≡ is_header (fields_of record.now) }
{
    match three_fields(record) {
        Some((first, second, third)) => are_header(first, second, third),
        None => false,
    }
}

/// The row that the record with this number writes, or what is wrong with it.
#[tactic(auto, using(crate::proofs::FieldFacts::no_row))]
pub(crate) fn read_row(row: u64, record: &ByteRecord) -> Result<RosterRow, FileFault>
    ensures { result ≡ row_of row (fields_of record.now) }
{
    match three_fields(record) {
        Some((name, word, last)) => read_fields(row, name, word, last),
        None => Err(FileFault::Columns { row }),
    }
}
