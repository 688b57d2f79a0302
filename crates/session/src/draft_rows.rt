//! The rows of a draft.

ghost use Rattle.std.specs.Prelude.{◌≡◌, ◌+◌, ◌≤◌, ◌<◌, ◌^◌, ℕ, [], length, slice_get, Some, true, false, OnOk};
ghost use Rattle.std.specs.Str.{bytes_eq};
ghost use Rattle.command_types.specs.Session.{draft_amount, draft_sum, with_draft_row};
ghost use Rattle.session.specs.Drafts.{row_of, AreFound, AreSums, AreWithin, NoneWithItself};
ghost use Rattle.units_core.specs.declared.limits.TheConstants.{MOST_DRAFT, MOST_GROSS};

use indexmap::IndexMap;
use std::alloc::{AllocError, Global};
use units_core::{Amount, Name};

/// A product, and a pair of members, by their names.
#[derive(Clone, Copy, PartialEq, Eq, Hash)]
pub struct PairKey {
    pub product: Name,
    pub seller: Name,
    pub buyer: Name,
}

/// The rows of a draft, in the order in which their pairs were first noted, with each product's sum, which is at most
/// 10^18. No row is of a member with itself.
#[derive(Drop)]
pub struct DraftRows {
    rows: IndexMap<PairKey, u64>,
    sums: IndexMap<Name, u64>,
    ghost found: { AreFound rows.entries },
    ghost summed: { AreSums rows.entries sums.entries },
    ghost within: { AreWithin rows.entries },
    ghost parted: { NoneWithItself rows.entries },
}

impl DraftRows {
    ghost use Rattle.session.specs.Kept.{kept_rows, HasRowRoom};
    ghost use Rattle.units_core.specs.declared.limits.TheConstants.{MOST_DRAFT, MOST_GROSS};

    /// No rows, without memory.
    pub fn new(alloc: Global) -> DraftRows
        ensures { kept_rows result ≡ [] }
    {
        DraftRows {
            rows: IndexMap::new(alloc),
            sums: IndexMap::new(alloc),
        }
    }

    /// How many rows there are.
    pub fn len(&self) -> usize
        ensures { result ≡ length (kept_rows self.now) }
    {
        self.rows.len()
    }

    /// How many rows there would be with a row of this pair.
    pub fn len_with(&self, key: &PairKey) -> usize
        requires { length (kept_rows self.now) ≤ MOST_DRAFT }
        ensures len { (amount : ℕ) → result ≡ length (with_draft_row (row_of (key.now, amount)) (kept_rows self.now)) }
        ensures most { result ≤ length (kept_rows self.now) + 1 }
    {
        if self.rows.contains_key(key) {
            return self.rows.len();
        }
        self.rows.len() + 1
    }

    /// The row at a place. If it is of a member with itself, its amount is 0.
    pub fn row(&self, place: usize) -> (PairKey, u64)
        requires { place < length (kept_rows self.now) }
        ensures row { slice_get (kept_rows self.now) place ≡ Some (row_of result) }
        ensures parties { bytes_eq result.0.seller result.0.buyer ≡ true → result.1 ≡ 0 }
    {
        match self.rows.get_index(place) {
            Some((key, amount)) => (*key, *amount),
            None => unreachable!(),
        }
    }

    /// The amount of a pair, or 0.
    pub fn amount(&self, key: &PairKey) -> u64
        ensures { result ≡ draft_amount key.now.product key.now.seller key.now.buyer (kept_rows self.now) }
    {
        self.rows.get(key).copied().unwrap_or(0)
    }

    /// The sum of a product's amounts.
    pub fn sum(&self, product: &Name) -> u64
        ensures sum { result ≡ draft_sum product.now (kept_rows self.now) }
        ensures within { result ≤ MOST_GROSS }
    {
        self.sums.get(product).copied().unwrap_or(0)
    }

    /// The sum of the product's amounts with this row, which replaces the pair's earlier one.
    pub fn sum_with(&self, key: &PairKey, amount: Amount) -> u64
        ensures { result ≡ draft_sum key.now.product (with_draft_row (row_of (key.now, amount)) (kept_rows self.now)) }
    {
        self.sum(&key.product) + amount.get() - self.amount(key)
    }

    /// Takes the memory for one more row.
    pub fn reserve(&mut self) -> Result<(), AllocError>
        ensures rows { kept_rows self.new ≡ kept_rows self.old }
        ensures room { OnOk result (HasRowRoom self.new) }
    {
        self.rows.reserve(1)?;
        self.sums.reserve(1)
    }

    /// Notes a row in the place of the pair's earlier one, or else last. The memory for it was taken.
    pub fn note(&mut self, key: PairKey, amount: Amount)
        requires room { HasRowRoom self.old }
        requires parties { bytes_eq key.seller key.buyer ≡ false }
        requires within { draft_sum key.product (with_draft_row (row_of (key, amount)) (kept_rows self.old)) ≤ MOST_GROSS }
        ensures { kept_rows self.new ≡ with_draft_row (row_of (key, amount)) (kept_rows self.old) }
    {
        let sum = self.sum_with(&key, amount);
        let Ok(_) = self.rows.insert(key, amount.get()) else {
            unreachable!()
        };
        let Ok(_) = self.sums.insert(key.product, sum) else {
            unreachable!()
        };
    }

    /// Drops all rows.
    pub fn clear(&mut self)
        ensures { kept_rows self.new ≡ [] }
    {
        self.rows.clear();
        self.sums.clear();
    }
}
