//! A roster of real rows, looked up by name, levels, and lists.

ghost use Rattle.std.specs.Prelude.{◌≡◌, IfOk, Some};
ghost use Rattle.units_core.specs.Day.{day_of};

use command_types::{Level, Listed, MemberRow, OperatorRow, ProductRow, Role, Roster};
use std::alloc::{AllocError, Global};
use std::test::Fail;
use units_core::{Day, MemberNo, Name, ProductNo};

fn name(text: &[u8]) -> Result<Name, AllocError>
    ensures { IfOk result (λ name. name ≡ text.now) }
{
    Name::read(text).ok_or(AllocError)
}

fn member(of: &[u8], role: Role, key: &[u8]) -> Result<MemberRow, AllocError>
    ensures { IfOk result (λ row. row ≡ record { name = of.now; role = role; key = key.now }) }
{
    let name = name(of)?;
    let key = self::name(key)?;
    Ok(MemberRow { name, role, key })
}

fn product(of: &[u8], maturity: &[u8]) -> Result<ProductRow, AllocError>
    ensures { IfOk result (λ row. (row.name ≡ of.now) × (Some row.maturity ≡ day_of maturity.now)) }
{
    let name = name(of)?;
    let Some(maturity) = Day::read(maturity) else {
        return Err(AllocError);
    };
    Ok(ProductRow { name, maturity })
}

/// The dealer A, the customer B, the product P and the operator OPS.
fn two_members(alloc: Global) -> Result<Roster, AllocError> {
    let mut members = Vec::new(alloc);
    members.push(member(b"A", Role::Dealer, b"KA")?)?;
    members.push(member(b"B", Role::Customer, b"KB")?)?;
    let mut products = Vec::new(alloc);
    products.push(product(b"P", b"2031-06-30")?)?;
    let operator = OperatorRow {
        name: name(b"OPS")?,
        key: name(b"KO")?,
    };
    Ok(Roster::new(members, products, Some(operator)))
}

/// Whether each name is that of the member at its place, and of the product at its place.
fn finds(
    roster: &Roster,
    cases: &[(&str, Option<MemberNo>, Option<ProductNo>)],
) -> Result<bool, AllocError> {
    for &(of, member, product) in cases {
        let name = name(of.as_bytes())?;
        if roster.member_named(&name) != member || roster.product_named(&name) != product {
            return Ok(false);
        }
    }
    Ok(true)
}

/// Whether the roster has two members, a product and an operator, found by their names.
fn is_found(roster: &Roster) -> Result<bool, AllocError> {
    let cases = [
        ("A", Some(MemberNo(0)), None),
        ("B", Some(MemberNo(1)), None),
        ("OPS", None, None),
        ("P", None, Some(ProductNo(0))),
    ];
    let has_all = roster.members().len() == 2
        && roster.products().len() == 1
        && roster.operator().is_some();
    Ok(has_all && finds(roster, &cases)?)
}

#[test]
fn members_products_and_operator_are_found_by_name(rt: HostRuntime) -> Result<(), Fail> {
    let roster = two_members(rt.alloc())?;
    let copy = roster.copy()?;
    assert!(rt; is_found(&roster)? && is_found(&copy)?);
    Ok(())
}

/// Whether each key is that of the name where that is said.
fn has_keys(alloc: Global, cases: &[(&str, &str, bool)]) -> Result<bool, AllocError> {
    let roster = two_members(alloc)?;
    for &(of, key, want) in cases {
        if roster.is_key(&name(of.as_bytes())?, &name(key.as_bytes())?) != want {
            return Ok(false);
        }
    }
    Ok(roster.is_operator(&name(b"OPS")?) && !roster.is_operator(&name(b"A")?))
}

#[test]
fn keys_belong_to_their_names(rt: HostRuntime) -> Result<(), Fail> {
    let cases = [
        ("A", "KA", true),
        ("B", "KB", true),
        ("OPS", "KO", true),
        ("A", "KB", false),
        ("OPS", "KA", false),
        ("X", "KA", false),
    ];
    assert!(rt; has_keys(rt.alloc(), &cases)?);
    Ok(())
}

/// Whether each number is a level, with the number again, or none.
fn are_levels(cases: &[(u64, bool)]) -> bool {
    for &(n, is_level) in cases {
        let is_right = match Level::new(n) {
            Some(level) => is_level && level.get() == n,
            None => !is_level,
        };
        if !is_right {
            return false;
        }
    }
    true
}

#[test]
fn levels_end_at_ten_to_the_eighteen(rt: HostRuntime) {
    let cases = [
        (0, true),
        (1_000_000_000_000_000_000, true),
        (1_000_000_000_000_000_001, false),
    ];
    assert!(rt; are_levels(&cases));
}

/// Whether a list of two rows has them, and gives them back.
fn gives_back(alloc: Global) -> Result<bool, AllocError> {
    let listed = Listed::new(Vec::from_array(alloc, [7u64, 9])?);
    let size = listed.rows().len();
    Ok(size == 2 && listed.into_rows().as_slice() == [7u64, 9].as_slice())
}

#[test]
fn a_list_gives_its_rows_back(rt: HostRuntime) -> Result<(), Fail> {
    assert!(rt; gives_back(rt.alloc())?);
    Ok(())
}
