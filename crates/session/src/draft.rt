//! The draft of a session: the rows and potentials that it has noted for a posting.

ghost use Rattle.std.specs.Prelude.{◌≡◌, ◌+◌, ◌≤◌, ℕ, ℤ, false, length, Result, OnOk, OnErr, Ok};
ghost use Rattle.command_types.specs.Session.{empty_draft, draft_size, draft_sum, capped, noted_row, noted_potential, draft_after};
ghost use Rattle.session.specs.Asks.{line_read, is_vote};
ghost use Rattle.session.specs.Kept.{kept_rows, kept_potentials};
ghost use Rattle.units_core.specs.declared.limits.TheConstants.{MOST_DRAFT};

use crate::draft_potentials::{DraftPotentials, PlaceKey};
use crate::draft_rows::{DraftRows, PairKey};
use command_text::BadLine;
use command_types::Line;
use std::alloc::{AllocError, Global};
use units_core::Amount;

/// The rows and potentials that a session has noted, of which there are at most 100,000.
#[derive(Drop)]
pub struct Draft {
    rows: DraftRows,
    potentials: DraftPotentials,
    ghost few: { length (kept_rows rows) + length (kept_potentials potentials) ≤ MOST_DRAFT },
}

impl Draft {
    ghost use Rattle.session.specs.KeptDraft.{draft_of, HasRoom, IsRowFor, IsPotentialFor, MayNote};

    /// An empty draft, without memory.
    pub fn new(alloc: Global) -> Draft
        ensures { draft_of result ≡ empty_draft }
    {
        Draft {
            rows: DraftRows::new(alloc),
            potentials: DraftPotentials::new(alloc),
        }
    }

    /// The rows.
    pub fn rows(&self) -> &DraftRows
        ensures { result.now ≡ self.now.rows }
    {
        &self.rows
    }

    /// The potentials.
    pub fn potentials(&self) -> &DraftPotentials
        ensures { result.now ≡ self.now.potentials }
    {
        &self.potentials
    }

    /// The draft's size with a row of this pair.
    pub fn size_with_row(&self, key: &PairKey) -> u32
        ensures { (amount : ℕ) → result ≡ draft_size (noted_row (draft_of self.now) key.now.product key.now.seller key.now.buyer amount) }
    {
        (self.rows.len_with(key) + self.potentials.len()) as u32
    }

    /// The product's sum with this row, or 10^18 + 1 for all sums above 10^18.
    pub fn sum_with_row(&self, key: &PairKey, amount: Amount) -> u64
        ensures { result ≡ capped (draft_sum key.now.product (noted_row (draft_of self.now) key.now.product key.now.seller key.now.buyer amount).rows) }
    {
        let sum = self.rows.sum_with(key, amount);
        if sum > Amount::MOST {
            return Amount::MOST + 1;
        }
        sum
    }

    /// The draft's size with a potential of this member.
    pub fn size_with_potential(&self, key: &PlaceKey) -> u32
        ensures { (value : ℤ) → result ≡ draft_size (noted_potential (draft_of self.now) key.now.product key.now.member value) }
    {
        (self.rows.len() + self.potentials.len_with(key)) as u32
    }

    /// Takes the memory that it needs to note what a line says.
    pub fn prepare(&mut self, read: &Result<Line, BadLine>) -> Result<(), AllocError>
        ensures draft { draft_of self.new ≡ draft_of self.old }
        ensures room { OnOk result (HasRoom self.new read.now) }
        ensures other { OnErr result (is_vote (line_read read.now) ≡ false) }
    {
        match read {
            Ok(Line::Row { .. }) => self.rows.reserve(),
            Ok(Line::Pot { .. }) => self.potentials.reserve(),
            _ => Ok(()),
        }
    }

    /// Notes what a line says, if it is a ROW or a POT.
    pub fn note(&mut self, read: &Result<Line, BadLine>)
        requires room { HasRoom self.old read.now }
        requires fits { MayNote (draft_of self.old) (line_read read.now) }
        ensures { draft_of self.new ≡ draft_after (draft_of self.old) (line_read read.now) }
    {
        match *read {
            Ok(
                Line::Row {
                    product,
                    seller,
                    buyer,
                    amount,
                },
            ) => {
                let key = PairKey {
                    product,
                    seller,
                    buyer,
                };
                self.rows.note(key, amount);
            }
            Ok(
                Line::Pot {
                    product,
                    member,
                    value,
                },
            ) => self.potentials.note(PlaceKey { product, member }, value),
            _ => {}
        }
    }

    /// Drops all rows and potentials.
    pub fn clear(&mut self)
        ensures { draft_of self.new ≡ empty_draft }
    {
        self.rows.clear();
        self.potentials.clear();
    }
}
