//! The rows of a seller's pairs without trades, where each pair may come to any amount. They are alike, so they are made
//! once, turned to one seller after another, and copied.

ghost use Rattle.std.specs.Prelude.{◌≡◌, ◌-◌, ◌≤◌, ◌++◌, length, IfOk, OnOk};
ghost use Rattle.tolerance_sets.specs.OpenPairs.{open_row, listed_from, AreOpenRows};

use network_laws::LimitRow;
use std::alloc::{AllocError, Global};

/// A row for each member as the buyer, the seller himself among them.
#[derive(Drop)]
pub(super) struct OpenRows {
    pub seller: u16,
    rows: Vec<LimitRow>,
}

impl OpenRows {
    /// Those of the first member.
    pub(super) fn of(alloc: Global, members: u16) -> Result<OpenRows, AllocError>
        ensures rows { IfOk result AreOpenRows }
        ensures members { IfOk result (λ template. length template.rows.items ≡ members) }
    {
        let mut rows = Vec::with_capacity(alloc, members as usize)?;
        for buyer in 0..members {
            rows.push(LimitRow {
                seller: 0,
                buyer,
                lower: 0,
                upper: None,
            })?;
        }
        Ok(OpenRows { seller: 0, rows })
    }

    /// Makes them those of another seller.
    pub(super) fn turn_to(&mut self, seller: u16)
        requires { AreOpenRows self.old }
        ensures rows { AreOpenRows self.new }
        ensures members { length self.new.rows.items ≡ length self.old.rows.items }
        ensures seller { self.new.seller ≡ seller }
    {
        for row in self.rows.iter_mut() {
            row.seller = seller;
        }
        self.seller = seller;
    }

    /// Adds those from one buyer on and below another. Nobody sells to himself.
    pub(super) fn add_to(
        &self,
        rows: &mut Vec<LimitRow>,
        from: u16,
        to: u16,
    ) -> Result<(), AllocError>
        requires rows { AreOpenRows self.now }
        requires from { from ≤ to }
        requires to { to ≤ length self.now.rows.items }
        ensures { OnOk result (rows.new.items ≡ rows.old.items ++ listed_from from (to - from) (open_row self.now.seller)) }
    {
        let own = self.seller;
        if own < from || own >= to {
            rows.extend_from_slice(&self.rows[from as usize..to as usize])?;
            return Ok(());
        }
        rows.extend_from_slice(&self.rows[from as usize..own as usize])?;
        rows.extend_from_slice(&self.rows[own as usize + 1..to as usize])?;
        Ok(())
    }
}
