//! What is kept of a freeze: its networks, and its free trades sorted. They are made when a version's problems first are, and
//! kept while the freeze stands, so that each further version on it copies the networks, and each POST takes the trades as they
//! are.

ghost use Rattle.std.specs.Prelude.{◌≡◌, ◌↔◌, [], IfOk, IsTrue, option_copied};
ghost use Rattle.std.specs.Slice.{IsItemAt};
ghost use Rattle.cycle_states.specs.Frozen.{frozen_product, kept_with, none_frozen, AreFrozenOf, IsFrozenOf};
ghost use Rattle.cycle_states.specs.Machine.{FrozenAreLive};

use super::effect::Effect;
use acceptance::FreeTrades;
use network_laws::Network;
use product_book::{Book, Which};
use std::alloc::{AllocError, Global};
use std::marker::Model;
use units_core::ProductNo;

/// A product's networks: of its frozen trades, and of those of them that a party holds.
#[derive(Drop)]
pub(super) struct FrozenProduct {
    pub(super) network: Network,
    pub(super) held: Network,
}

/// Those of a product of the book. The only error is want of memory.
pub(super) fn frozen_product(book: &Book, product: ProductNo) -> Result<FrozenProduct, AllocError>
    requires { FrozenAreLive book.now.rows }
    ensures { IfOk result (λ made. made ≡ frozen_product book.now.members product book.now.rows) }
{
    let network = book.network(product, Which::Frozen)?;
    let held = book.network(product, Which::FrozenHeld)?;
    Ok(FrozenProduct { network, held })
}

// Those of so many products of the book.
fn frozen_products(
    alloc: Global,
    book: &Book,
    products: u16,
) -> Result<Vec<FrozenProduct>, AllocError>
    requires { FrozenAreLive book.now.rows }
    ensures { IfOk result (λ made. AreFrozenOf book.now.members book.now.rows made.items) }
{
    let mut kept = Vec::new(alloc);
    for product in 0..products {
        let made = frozen_product(book, ProductNo(product))?;
        kept.push(made)?;
    }
    Ok(kept)
}

/// What is kept of a freeze: the networks of all products and its free trades, or nothing.
#[derive(Drop)]
pub(super) struct Frozen {
    kept: Vec<FrozenProduct>,
    free: Option<FreeTrades>,
}

impl Model for Frozen {
    ghost use Rattle.cycle_states.specs.Frozen.{FrozenView};

    ghost Value = { FrozenView };

    ghost view = { λ f. record { networks = f.kept.items; free = f.free } };
}

impl Frozen {
    /// Nothing. It takes no memory.
    pub(super) fn none(alloc: Global) -> Frozen
        ensures { result ≡ none_frozen }
    {
        Frozen {
            kept: Vec::new(alloc),
            free: None,
        }
    }

    /// The networks of so many products of the book, and its free trades. The only error is want of memory.
    pub(super) fn of(alloc: Global, book: &Book, products: u16) -> Result<Frozen, AllocError>
        requires { FrozenAreLive book.now.rows }
        ensures { IfOk result (λ frozen. IsFrozenOf book.now.members book.now.rows frozen) }
    {
        let kept = frozen_products(alloc, book, products)?;
        let free = FreeTrades::of(alloc, book.rows())?;
        Ok(Frozen {
            kept,
            free: Some(free),
        })
    }

    /// Whether there are no networks.
    pub(super) fn is_empty(&self) -> bool
        ensures { IsTrue result ↔ (self.now.networks ≡ []) }
    {
        self.kept.is_empty()
    }

    /// Those of a product, where they are kept.
    pub(super) fn product(&self, product: ProductNo) -> Option<&FrozenProduct>
        ensures { IsItemAt self.now.networks product result }
    {
        self.kept.get(product.index())
    }

    /// The free trades, where they are kept.
    pub(super) fn free(&self) -> Option<&FreeTrades>
        ensures { option_copied result ≡ self.now.free }
    {
        self.free.as_ref()
    }

    /// Drops what is kept where this begins a freeze, or ends one. It takes no memory.
    pub(super) fn pass(&mut self, effect: &Effect)
        ensures { self.new ≡ kept_with effect.now self.old }
    {
        match effect {
            Effect::Freeze { .. } | Effect::Execute { .. } | Effect::Complete | Effect::Cancel => {
                self.kept.clear();
                self.free = None;
            }
            _ => {}
        }
    }
}
