//! The dealers A, B and C and their operator with one product, and networks between the dealers.

ghost use Rattle.std.specs.Prelude.{◌≡◌, [], ◌∷◌, IfOk, IsTrue, All, length};
ghost use Rattle.units_core.specs.Name.{is_name};
ghost use Rattle.network_laws.specs.Solutions.{IsPotential};

use command_types::{MemberRow, OperatorRow, ProductRow, Role, Roster};
use network_laws::{Network, Row, Solution};
use std::alloc::{AllocError, Global};
use std::test::Fail;
use units_core::{Day, MemberNo, Name};

pub const A: MemberNo = MemberNo(0);

pub const B: MemberNo = MemberNo(1);

pub const C: MemberNo = MemberNo(2);

pub fn named(text: &[u8]) -> Name
    requires { IsTrue (is_name text.now) }
    ensures { result ≡ text.now }
{
    match Name::read(text) {
        None => unreachable!(),
        Some(name) => name,
    }
}

fn member(name: Name, role: Role, key: Name) -> MemberRow
    ensures { result ≡ record { name = name; role = role; key = key } }
{
    MemberRow { name, role, key }
}

// OPS with the key KO.
fn operator() -> OperatorRow
    ensures { result ≡ record { name = 79 ∷ 80 ∷ 83 ∷ []; key = 75 ∷ 79 ∷ [] } }
{
    OperatorRow {
        name: named(b"OPS"),
        key: named(b"KO"),
    }
}

fn product(name: Name) -> Result<ProductRow, AllocError>
    ensures { IfOk result (λ row. row.name ≡ name) }
{
    Ok(ProductRow {
        name,
        maturity: Day::new(2031, 6, 30).ok_or(AllocError)?,
    })
}

/// Dealers A, B and C with the keys KA, KB and KC, the operator OPS with KO, and the product P.
pub fn three_dealers(alloc: Global) -> Result<Roster, AllocError>
    ensures members { IfOk result (λ roster. length roster.members ≡ 3) }
    ensures products { IfOk result (λ roster. length roster.products ≡ 1) }
{
    let a = member(named(b"A"), Role::Dealer, named(b"KA"));
    let b = member(named(b"B"), Role::Dealer, named(b"KB"));
    let c = member(named(b"C"), Role::Dealer, named(b"KC"));
    let members = Vec::from_array(alloc, [a, b, c])?;
    let products = Vec::from_array(alloc, [product(named(b"P"))?])?;
    Ok(Roster::new(members, products, Some(operator())))
}

/// The dealer A and the customer D with the keys KA and KD, the operator OPS with KO, and the products P and Q.
pub fn two_products(alloc: Global) -> Result<Roster, AllocError>
    ensures members { IfOk result (λ roster. length roster.members ≡ 2) }
    ensures products { IfOk result (λ roster. length roster.products ≡ 2) }
{
    let a = member(named(b"A"), Role::Dealer, named(b"KA"));
    let d = member(named(b"D"), Role::Customer, named(b"KD"));
    let members = Vec::from_array(alloc, [a, d])?;
    let (p, q) = (product(named(b"P"))?, product(named(b"Q"))?);
    let products = Vec::from_array(alloc, [p, q])?;
    Ok(Roster::new(members, products, Some(operator())))
}

// A row: seller, buyer and amount.
type Owed = (MemberNo, MemberNo, u64);

fn put_rows(list: &mut Vec<Row>, rows: &[Owed]) -> Result<(), AllocError> {
    for (seller, buyer, amount) in rows {
        list.push(Row {
            seller: seller.0,
            buyer: buyer.0,
            amount: *amount,
        })?;
    }
    Ok(())
}

// The network of these rows between the dealers.
fn network(alloc: Global, rows: &[Owed]) -> Result<Network, Fail>
    ensures { IfOk result (λ network. network.members ≡ 3) }
{
    let mut list = Vec::new(alloc);
    put_rows(&mut list, rows)?;
    Ok(Network::from_rows(3, list)?)
}

fn solution(alloc: Global, potentials: [i32; 3], rows: &[Owed]) -> Result<Solution, Fail>
    requires { All IsPotential potentials }
{
    let potentials = Vec::from_array(alloc, potentials)?;
    Ok(Solution::new(network(alloc, rows)?, potentials))
}

// No amounts between two members.
fn of_two(alloc: Global) -> Result<Solution, Fail> {
    let potentials = Vec::from_array(alloc, [0, 0])?;
    Ok(Solution::new(Network::from_rows(2, Vec::new(alloc))?, potentials))
}

/// A solution that is posted. Where potentials are not told, they are 0.
#[derive(Clone, Copy)]
pub enum Posted {
    /// No amounts.
    Empty,
    /// No amounts between two members.
    OfTwo,
    /// The least network of the chain in which A owes B 10 and B owes C 7, with a potential of 1 for A.
    ShortChain,
    /// A part of what A owes there, with a potential of 1 for A.
    Less,
}

fn solution_of(alloc: Global, posted: Posted) -> Result<Solution, Fail> {
    match posted {
        Posted::Empty => solution(alloc, [0, 0, 0], &[]),
        Posted::OfTwo => of_two(alloc),
        Posted::ShortChain => solution(alloc, [1, 0, 0], &[(A, B, 3), (A, C, 7)]),
        Posted::Less => solution(alloc, [1, 0, 0], &[(A, B, 3)]),
    }
}

fn put_solutions(
    alloc: Global,
    solutions: &mut Vec<Solution>,
    posted: &[Posted],
) -> Result<(), Fail> {
    for one in posted {
        solutions.push(solution_of(alloc, *one)?)?;
    }
    Ok(())
}

/// The solutions, in this order.
pub fn solutions_of(alloc: Global, posted: &[Posted]) -> Result<Vec<Solution>, Fail> {
    let mut solutions = Vec::new(alloc);
    put_solutions(alloc, &mut solutions, posted)?;
    Ok(solutions)
}
