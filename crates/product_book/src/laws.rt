//! The laws of freezes and of their networks, each the contract of a function that does nothing.

ghost use Rattle.product_book.specs.Freezes.{FreezesByMaturity};
ghost use Rattle.product_book.specs.Networks.{HeldIsWithinFrozen};

/// With the flags of the products that mature after a day, [`Book::freeze`](crate::Book::freeze) freezes what a freeze
/// of the day takes.
pub fn freezes_by_maturity()
    ensures { FreezesByMaturity }
{}

/// The network of what is held has the members of the frozen trades' network, and lies below it in every pair.
pub fn held_is_within_frozen()
    ensures { HeldIsWithinFrozen }
{}
