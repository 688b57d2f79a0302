//! Who takes part, and in which products.

use crate::name_index::{NameIndex, key_of};
use crate::row_places::{member_at, product_at};
use std::alloc::AllocError;
use std::marker::Model;
use units_core::{Day, MemberNo, Name, ProductNo};

/// What a member is registered as.
#[derive(Clone, Copy, PartialEq, Eq)]
pub enum Role {
    Dealer,
    Customer,
}

/// A member, with the key that it greets by.
#[derive(Clone, Copy)]
pub struct MemberRow {
    pub name: Name,
    pub role: Role,
    pub key: Name,
}

/// A product, and the day on which it matures.
#[derive(Clone, Copy)]
pub struct ProductRow {
    pub name: Name,
    pub maturity: Day,
}

/// The operator, with the key that it greets by.
#[derive(Clone, Copy)]
pub struct OperatorRow {
    pub name: Name,
    pub key: Name,
}

/// At most 256 members, 64 dealers among them, at most 64 products, and an operator or none. All their names differ.
#[derive(Drop)]
pub struct Roster {
    members: Vec<MemberRow>,
    products: Vec<ProductRow>,
    operator: Option<OperatorRow>,
    /// Where the members' names stand. Contracts see nothing of it.
    member_index: NameIndex,
    /// The same of the products' names.
    product_index: NameIndex,
}

impl Model for Roster {
    ghost use Rattle.command_types.specs.Roster.{Rows};
    ghost use Rattle.command_types.specs.Stamps.{IsIndexed};

    ghost Value = { Rows };

    ghost view = { λ r. record { members = r.members.items; products = r.products.items; operator = r.operator } };

    ghost invariant = { λ r. IsIndexed (record { members = r.members.items; products = r.products.items; operator = r.operator }) r.member_index r.product_index };
}

ghost use Rattle.std.specs.Prelude.{◌≡◌, ◌≤◌, ◌<◌, ◌&&◌, IfOk, IfSome, None, length, map, position, true, if◌then◌else◌};
ghost use Rattle.std.specs.List.{list_any};
ghost use Rattle.std.specs.Str.{bytes_eq};
ghost use Rattle.command_types.specs.Roster.{Rows, IsRoster, member_place, product_place, is_operator, is_operator_row, is_key, is_member_key, is_operator_key, are_different};
ghost use Rattle.units_core.specs.Name.{is_name};
ghost use Rattle.units_core.specs.declared.limits.TheConstants.{MOST_MEMBERS, MOST_PRODUCTS};

impl Roster {
    /// The roster of these rows.
    pub fn new(
        members: Vec<MemberRow>,
        products: Vec<ProductRow>,
        operator: Option<OperatorRow>,
    ) -> Roster
        requires { IsRoster (record { members = members.items; products = products.items; operator = operator }) }
        ensures { result ≡ record { members = members.items; products = products.items; operator = operator } }
    {
        let member_index = NameIndex::of_members(&members);
        let product_index = NameIndex::of_products(&products);
        Roster {
            members,
            products,
            operator,
            member_index,
            product_index,
        }
    }

    /// An equal roster. The only error is want of memory.
    pub fn copy(&self) -> Result<Roster, AllocError>
        ensures { IfOk result (λ roster. roster ≡ self.now) }
    {
        let members = self.members.clone()?;
        let products = self.products.clone()?;
        Ok(Roster {
            members,
            products,
            operator: self.operator,
            member_index: self.member_index.copy(),
            product_index: self.product_index.copy(),
        })
    }

    /// The members, in their order.
    pub fn members(&self) -> &[MemberRow]
        ensures rows { result.now ≡ self.now.members }
        ensures few { length result.now ≤ MOST_MEMBERS }
        ensures roster { IsRoster self.now }
    {
        &self.members
    }

    /// The products, in their order.
    pub fn products(&self) -> &[ProductRow]
        ensures rows { result.now ≡ self.now.products }
        ensures few { length result.now ≤ MOST_PRODUCTS }
    {
        &self.products
    }

    /// The operator, if there is one.
    pub fn operator(&self) -> Option<OperatorRow>
        ensures { result ≡ self.now.operator }
    {
        self.operator
    }

    /// The place of the member with this name; none exactly where no member has it.
    pub fn member_named(&self, name: &Name) -> Option<MemberNo>
        ensures { result ≡ member_place self.now name.now }
    {
        self.member_spelt(name.text())
    }

    /// The place of the product with this name; none exactly where no product has it.
    pub fn product_named(&self, name: &Name) -> Option<ProductNo>
        ensures { result ≡ product_place self.now name.now }
    {
        self.product_spelt(name.text())
    }

    /// The place of the member whose name this text is; none exactly where it is no member's name.
    #[inline]
    pub fn member_spelt(&self, text: &[u8]) -> Option<MemberNo>
        ensures { result ≡ (if is_name text.now then member_place self.now text.now else None) }
    {
        let key = key_of(text);
        let place = self.member_index.place(key);
        if self.member_index.has_stamp(place, text, key) {
            return Some(MemberNo(place as u16));
        }
        match member_at(&self.members, text, place as usize) {
            None => None,
            Some(place) => Some(MemberNo(place as u16)),
        }
    }

    /// The place of the product whose name this text is; none exactly where it is no product's name.
    #[inline]
    pub fn product_spelt(&self, text: &[u8]) -> Option<ProductNo>
        ensures place { result ≡ (if is_name text.now then product_place self.now text.now else None) }
        ensures few { IfSome result (λ place. place < MOST_PRODUCTS) }
    {
        let key = key_of(text);
        let place = self.product_index.place(key);
        if self.product_index.has_stamp(place, text, key) {
            return Some(ProductNo(place as u16));
        }
        match product_at(&self.products, text, place as usize) {
            None => None,
            Some(place) => Some(ProductNo(place as u16)),
        }
    }

    /// Whether this is the operator's name.
    pub fn is_operator(&self, name: &Name) -> bool
        ensures { result ≡ is_operator self.now name.now }
    {
        is_named(&self.operator, name)
    }

    /// Whether a member or the operator has this name and this key.
    pub fn is_key(&self, name: &Name, key: &Name) -> bool
        ensures { result ≡ is_key self.now name.now key.now }
    {
        has_member_key(&self.members, name, key) || has_key(&self.operator, name, key)
    }
}

fn has_member_key(members: &[MemberRow], name: &Name, key: &Name) -> bool
    ensures { result ≡ list_any (λ row. bytes_eq row.name name.now && bytes_eq row.key key.now) members.now }
{
    members
        .iter()
        .any(|row| row.name.is(name) && row.key.is(key))
}

fn is_named(operator: &Option<OperatorRow>, name: &Name) -> bool
    ensures { result ≡ is_operator_row operator.now name.now }
{
    match operator {
        None => false,
        Some(row) => row.name.is(name),
    }
}

fn has_key(operator: &Option<OperatorRow>, name: &Name, key: &Name) -> bool
    ensures { result ≡ is_operator_key operator.now name.now key.now }
{
    match operator {
        None => false,
        Some(row) => row.name.is(name) && row.key.is(key),
    }
}
