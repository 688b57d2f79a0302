//! The market of a number, to try the service on: it is the same on every machine.
ghost use Rattle.std.specs.Prelude.{◌≡◌, ◌≢◌, ◌<◌, ◌≤◌, ◌+◌, IfOk};
ghost use Rattle.trade_file.specs.TradeFile.{AreFileTrades};
ghost use Rattle.trade_file.specs.Generated.{other_than, trade_from, after_trade, first_trades, generated_trades, generated_name, generated_member, generated_product, first_members, first_products, generated_rows};

use crate::draws::Draws;
use crate::file_trade::FileTrade;
use command_types::{MemberRow, ProductRow, Role, Roster};
use std::alloc::{AllocError, Global};
use units_core::{Amount, Day, MemberNo, Name, ProductNo};

const MEMBERS: u16 = 44;

const DEALERS: u16 = 14;

const PRODUCTS: u16 = 8;

const TRADES: u32 = 3_000;

const MOST_AMOUNT: u64 = 1_000_000;

// The name of a member.
fn member_name(member: u16) -> Name
    requires { member < 100 }
    ensures { result ≡ generated_name member }
{
    let letter = if member < DEALERS { b'D' } else { b'C' };
    let tens = b'0' + (member / 10) as u8;
    let ones = b'0' + (member % 10) as u8;
    match Name::read(&[letter, tens, ones]) {
        Some(name) => name,
        None => unreachable!(),
    }
}

fn member_row(member: u16) -> MemberRow
    requires { member < 100 }
    ensures { result ≡ generated_member member }
{
    let name = member_name(member);
    let role = if member < DEALERS {
        Role::Dealer
    } else {
        Role::Customer
    };
    MemberRow {
        name,
        role,
        key: name,
    }
}

#[tactic(auto, using(crate::proofs::GeneratedFacts::no_members, crate::proofs::GeneratedFacts::members_more))]
fn members(alloc: Global) -> Result<Vec<MemberRow>, AllocError>
    ensures { IfOk result (λ members. members.items ≡ first_members 44) }
{
    let mut members = Vec::new(alloc);
    for member in 0..MEMBERS {
        members.push(member_row(member))?;
    }
    Ok(members)
}

// The day on which each product matures.
fn maturity() -> Day
    ensures { result ≡ record { year = 2040; month = 1; day = 1 } }
{
    match Day::new(2040, 1, 1) {
        Some(day) => day,
        None => unreachable!(),
    }
}

// The name of a product.
fn product_name(product: u16) -> Name
    requires { product < 10 }
    ensures { result ≡ (generated_product product).name }
{
    match Name::read(&[b'P', b'0' + product as u8]) {
        Some(name) => name,
        None => unreachable!(),
    }
}

#[tactic(auto, using(crate::proofs::GeneratedFacts::no_products, crate::proofs::GeneratedFacts::products_more))]
fn products(alloc: Global) -> Result<Vec<ProductRow>, AllocError>
    ensures { IfOk result (λ products. products.items ≡ first_products 8) }
{
    let maturity = maturity();
    let mut products = Vec::new(alloc);
    for product in 0..PRODUCTS {
        products.push(ProductRow {
            name: product_name(product),
            maturity,
        })?;
    }
    Ok(products)
}

// The roster of every generated market.
fn roster(alloc: Global) -> Result<Roster, AllocError>
    ensures { IfOk result (λ roster. roster ≡ generated_rows) }
{
    let members = members(alloc)?;
    let products = products(alloc)?;
    Ok(Roster::new(members, products, None))
}

// The place of this number among all members but one.
fn member_but(one: u64, number: u64) -> u64
    requires { number < 43 }
    ensures value { result ≡ other_than one number }
    ensures below { result < 44 }
{
    if number < one { number } else { number + 1 }
}

// An amount from 1 on.
fn amount_above(number: u64) -> Amount
    requires { number < 1000000 }
    ensures { result ≡ 1 + number }
{
    match Amount::new(1 + number) {
        Some(amount) => amount,
        None => unreachable!(),
    }
}

// Draws a trade: its seller, its buyer, its product and its amount.
fn draw_trade(draws: &mut Draws) -> FileTrade
    ensures trade { result ≡ trade_from draws.old }
    ensures state { draws.new ≡ after_trade draws.old }
{
    let seller = draws.draw_below(u64::from(MEMBERS));
    let buyer = member_but(seller, draws.draw_below(u64::from(MEMBERS - 1)));
    let product = draws.draw_below(u64::from(PRODUCTS));
    let amount = amount_above(draws.draw_below(MOST_AMOUNT));
    FileTrade {
        seller: MemberNo(seller as u16),
        buyer: MemberNo(buyer as u16),
        product: ProductNo(product as u16),
        amount,
    }
}

#[tactic(auto, using(crate::proofs::GeneratedFacts::no_trades, crate::proofs::GeneratedFacts::trades_more, crate::proofs::GeneratedFacts::state_first, crate::proofs::GeneratedFacts::state_more))]
fn trades(alloc: Global, number: u64) -> Result<Vec<FileTrade>, AllocError>
    ensures { IfOk result (λ trades. trades.items ≡ generated_trades number) }
{
    let mut draws = Draws::from_number(number);
    let mut trades = Vec::new(alloc);
    for _trade in 0..TRADES {
        trades.push(draw_trade(&mut draws))?;
    }
    Ok(trades)
}

/// The market of a number: the roster of 14 dealers, 30 customers and 8 products, without an operator, and 3,000 trades,
/// which are drawn from the number on. Amounts are from 1 to 10^6, in the contract's currency unit. The only error is want
/// of memory.
pub fn generate(alloc: Global, number: u64) -> Result<(Roster, Vec<FileTrade>), AllocError>
    ensures roster { IfOk result (λ market. market.0 ≡ generated_rows) }
    ensures trades { IfOk result (λ market. market.1.items ≡ generated_trades number) }
    ensures within { IfOk result (λ market. AreFileTrades market.0 market.1.items) }
{
    let roster = roster(alloc)?;
    let trades = trades(alloc, number)?;
    Ok((roster, trades))
}
