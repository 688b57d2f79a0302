//! The trades of a file, dealt to their products in one pass.
ghost use Rattle.std.specs.Prelude.{◌≡◌, ◌<◌, [], ◌∷◌, ◌++◌, length, map, replicate, slice_set, IfOk};
ghost use Rattle.trade_file.specs.Piles.{items_of, pile_of};

use crate::file_trade::FileTrade;
use std::alloc::{AllocError, Global};
use std::marker::Model;

/// For each product a pile of trades. Contracts see the piles as lists.
#[derive(Drop)]
pub(crate) struct Piles {
    piles: Vec<Vec<FileTrade>>,
}

impl Model for Piles {
    ghost use Rattle.std.specs.Prelude.{List, map};
    ghost use Rattle.trade_file.specs.declared.file_trade.FileTrade.{FileTrade};
    ghost use Rattle.trade_file.specs.Piles.{items_of};

    ghost Value = { List (List FileTrade) };

    ghost view = { λ p. map items_of p.piles.items };
}

// A pile without trades for each product.
fn no_piles(alloc: Global, products: usize) -> Result<Vec<Vec<FileTrade>>, AllocError>
    ensures { IfOk result (λ piles. map items_of piles.items ≡ replicate products []) }
{
    let mut piles = Vec::new(alloc);
    for _product in 0..products {
        piles.push(Vec::new(alloc))?;
    }
    Ok(piles)
}

// Puts a trade on its product's pile.
fn add_trade(piles: &mut [Vec<FileTrade>], trade: FileTrade) -> Result<(), AllocError>
    requires { trade.product < length piles.old }
    ensures { IfOk result (λ _. map items_of piles.new ≡ slice_set (map items_of piles.old) trade.product (pile_of (map items_of piles.old) trade.product ++ trade ∷ [])) }
{
    piles[trade.product.index()].push(trade)?;
    Ok(())
}

impl Piles {
    ghost use Rattle.std.specs.Prelude.{All};
    ghost use Rattle.trade_file.specs.Piles.{AreDealt};

    /// The trades of so many products. The only error is want of memory.
    pub(crate) fn of(
        alloc: Global,
        trades: &[FileTrade],
        products: usize,
    ) -> Result<Piles, AllocError>
        requires { All (λ trade. trade.product < products) trades.now }
        ensures { IfOk result (AreDealt products trades.now) }
    {
        let mut piles = no_piles(alloc, products)?;
        for trade in trades {
            add_trade(&mut piles, *trade)?;
        }
        Ok(Piles { piles })
    }

    /// The trades of a product.
    pub(crate) fn pile(&self, product: usize) -> &[FileTrade]
        requires { product < length self.now }
        ensures { result.now ≡ pile_of self.now product }
    {
        &self.piles[product]
    }
}
