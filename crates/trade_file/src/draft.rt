//! The rows of a roster, as far as its file was read.
ghost use Rattle.std.specs.Prelude.{◌≡◌, ◌&&◌, ◌||◌, nat_le, length, filter, Ok};
ghost use Rattle.command_types.specs.Roster.{is_dealer};

use crate::names::Names;
use crate::roster_row::RosterRow;
use command_types::{FileFault, MemberRow, OperatorRow, ProductRow, Role, Roster};
use std::alloc::Global;
use units_core::{MOST_DEALERS, MOST_MEMBERS, MOST_PRODUCTS};

/// The rows so far, and their names.
#[derive(Drop)]
pub(crate) struct Draft {
    members: Vec<MemberRow>,
    products: Vec<ProductRow>,
    operator: Option<OperatorRow>,
    names: Names,
}

ghost use Rattle.trade_file.specs.RosterFile.{no_rows, with_read};
ghost use Rattle.trade_file.specs.Draft.{IsDraft, rows_of, Steps};
ghost use Rattle.trade_file.specs.declared.roster_row.RosterRow.TheVariants as line;
ghost use Rattle.units_core.specs.declared.limits.TheConstants.{MOST_DEALERS, MOST_MEMBERS, MOST_PRODUCTS};

// How many of the members are dealers.
fn count_dealers(members: &[MemberRow]) -> usize
    ensures { result ≡ length (filter (λ row. is_dealer row.role) members.now) }
{
    members
        .iter()
        .filter(|row| row.role == Role::Dealer)
        .count()
}

// Whether there is no room for one more member of this role.
fn is_full_of_members(members: &[MemberRow], role: Role) -> bool
    ensures { result ≡ (nat_le MOST_MEMBERS (length members.now) || (is_dealer role && nat_le MOST_DEALERS (length (filter (λ row. is_dealer row.role) members.now)))) }
{
    members.len() >= MOST_MEMBERS as usize
        || (role == Role::Dealer && count_dealers(members) >= MOST_DEALERS)
}

// Whether there is no room for one more product.
fn is_full_of_products(products: &[ProductRow]) -> bool
    ensures { result ≡ nat_le MOST_PRODUCTS (length products.now) }
{
    products.len() >= MOST_PRODUCTS
}

impl Draft {
    pub(crate) fn new(alloc: Global) -> Draft
        ensures rows { rows_of result ≡ no_rows }
        ensures draft { IsDraft result }
    {
        Draft {
            members: Vec::new(alloc),
            products: Vec::new(alloc),
            operator: None,
            names: Names::new(alloc),
        }
    }

    fn add_member(&mut self, number: u64, row: MemberRow) -> Result<(), FileFault>
        requires { IsDraft self.old }
        ensures { Steps (with_read number (rows_of self.old) (Ok (line.Member row))) self.new result }
    {
        if self.names.has(row.name) {
            return Err(FileFault::Twice { row: number });
        }
        if is_full_of_members(&self.members, row.role) {
            return Err(FileFault::RowLimit { row: number });
        }
        if self.names.add(row.name).is_err() || self.members.push(row).is_err() {
            return Err(FileFault::Memory);
        }
        Ok(())
    }

    fn add_product(&mut self, number: u64, row: ProductRow) -> Result<(), FileFault>
        requires { IsDraft self.old }
        ensures { Steps (with_read number (rows_of self.old) (Ok (line.Product row))) self.new result }
    {
        if self.names.has(row.name) {
            return Err(FileFault::Twice { row: number });
        }
        if is_full_of_products(&self.products) {
            return Err(FileFault::RowLimit { row: number });
        }
        if self.names.add(row.name).is_err() || self.products.push(row).is_err() {
            return Err(FileFault::Memory);
        }
        Ok(())
    }

    fn add_operator(&mut self, number: u64, row: OperatorRow) -> Result<(), FileFault>
        requires { IsDraft self.old }
        ensures { Steps (with_read number (rows_of self.old) (Ok (line.Operator row))) self.new result }
    {
        if self.names.has(row.name) || self.operator.is_some() {
            return Err(FileFault::Twice { row: number });
        }
        if self.names.add(row.name).is_err() {
            return Err(FileFault::Memory);
        }
        self.operator = Some(row);
        Ok(())
    }

    /// Puts the row of the record with this number behind those of its kind.
    pub(crate) fn add(&mut self, number: u64, row: RosterRow) -> Result<(), FileFault>
        requires { IsDraft self.old }
        ensures { Steps (with_read number (rows_of self.old) (Ok row)) self.new result }
    {
        match row {
            RosterRow::Member(row) => self.add_member(number, row),
            RosterRow::Operator(row) => self.add_operator(number, row),
            RosterRow::Product(row) => self.add_product(number, row),
        }
    }

    /// The roster of the rows.
    pub(crate) fn into_roster(self) -> Roster
        requires { IsDraft self }
        ensures { result ≡ rows_of self }
    {
        let Draft {
            members,
            products,
            operator,
            names: _,
        } = self;
        Roster::new(members, products, operator)
    }
}
