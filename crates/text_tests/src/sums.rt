//! The networks of trade files, from outside.

use std::alloc::AllocGlobal;
use std::test::Fail;
use std::thread::Threads;
use trade_file::{Readers, networks, read_roster, read_trades};

/// Whether the files give a network of so many members for each product, with these amounts by seller and buyer alone.
fn adds_up<R: Threads + Sync + AllocGlobal>(
    rt: &R,
    parties: &[u8],
    trades: &[u8],
    members: u16,
    products: &[&[(u16, u16, u64)]],
) -> Result<bool, Fail> {
    let alloc = rt.alloc();
    let roster = read_roster(alloc, parties)?;
    let trades = read_trades(alloc, trades, &roster, &Readers::new(rt, 1))?;
    let found = networks(alloc, &trades, &roster)?;
    for (network, amounts) in found.iter().zip(products) {
        if network.members() != members || network.rows().len() != amounts.len() {
            return Ok(false);
        }
        for &(seller, buyer, amount) in *amounts {
            if network.amount(seller, buyer) != amount {
                return Ok(false);
            }
        }
    }
    Ok(found.len() == products.len())
}

#[test]
fn trades_of_a_pair_are_added_up_by_product(rt: HostRuntime) -> Result<(), Fail> {
    let parties =
        b"name,role,key\nA,dealer,KA\nB,dealer,KB\nC,customer,KC\nP,product,2031-06-30\nQ,product,2031-06-30\n";
    let trades =
        b"seller,buyer,product,amount\nC,A,P,4\nA,B,P,10\nA,B,Q,1\nB,A,P,2\nA,B,P,5\nB,C,P,7\n";
    let first = [(0, 1, 15), (1, 0, 2), (1, 2, 7), (2, 0, 4)];
    let second = [(0, 1, 1)];
    assert!(rt; adds_up(&rt, parties, trades, 3, &[&first, &second])?);
    Ok(())
}

#[test]
fn a_product_without_trades_has_an_empty_network(rt: HostRuntime) -> Result<(), Fail> {
    let parties = b"name,role,key\nA,dealer,KA\nP,product,2031-06-30\n";
    let trades = b"seller,buyer,product,amount\n";
    assert!(rt; adds_up(&rt, parties, trades, 1, &[&[]])?);
    Ok(())
}
