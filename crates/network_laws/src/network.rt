//! A network: rows in rising order between different members.

ghost use Rattle.std.specs.Prelude.{◌≡◌, ◌≢◌, ◌↔◌, ℕ, ◌+◌, ◌*◌, ◌<◌, ◌≤◌, ◌^◌, length, MatchResult, IsOk, IfOk, All};
ghost use Rattle.network_laws.specs.Networks.{NetworkData, IsNetwork, AreRows, IsRising, at, place, total};
ghost use Rattle.network_laws.specs.Faults.{IsFault};
ghost use Rattle.units_core.specs.declared.limits.TheConstants.{MOST_MEMBERS};

use crate::rows::Row;
use crate::walk::{amount_at, first_row, place_of};
use std::alloc::AllocError;
use std::marker::Model;
use thiserror::Error;
use units_core::{MOST_GROSS, MOST_MEMBERS};

/// What keeps rows from being a network. `at` is the place of the first row that is bad, from 0; of one
/// row's faults the first in this order is told.
#[derive(Clone, Copy, Debug, PartialEq, Eq, Error)]
pub enum NetworkFault {
    /// There are more than 256 members.
    #[error("more than 256 members")]
    Members,
    /// The seller or the buyer is not below the number of members.
    #[error("row {at}: no such member")]
    Member { at: usize },
    /// Seller and buyer are the same.
    #[error("row {at}: seller and buyer are the same")]
    Same { at: usize },
    /// The amount is 0.
    #[error("row {at}: the amount is 0")]
    Zero { at: usize },
    /// The row does not stand behind the one before it.
    #[error("row {at}: out of order")]
    Order { at: usize },
    /// With this row the amounts pass the most gross.
    #[error("row {at}: the gross is too large")]
    Gross { at: usize },
}

/// What each member sold to each other one, in the contract's currency unit. Rows rise by seller and
/// then buyer, which are different and below the number of members, at most 256; amounts are at least
/// 1, and their sum, the gross notional, is at most 10^18. A pair without a row has amount 0.
#[derive(Drop)]
pub struct Network {
    members: u16,
    rows: Vec<Row>,
}

impl Model for Network {
    ghost use Rattle.network_laws.specs.Networks.{NetworkData, IsNetwork};

    ghost Value = { NetworkData };

    ghost view = { λ a. record { members = a.members; rows = a.rows.items } };

    ghost invariant = { λ a. IsNetwork (record { members = a.members; rows = a.rows.items }) };
}

impl Network {
    /// The network of these rows, or what is wrong first: too many members, else the first bad row. On a
    /// fault the rows are dropped.
    pub fn from_rows(members: u16, rows: Vec<Row>) -> Result<Network, NetworkFault>
        ensures good { IsOk result ↔ IsNetwork (record { members = members; rows = rows.items }) }
        ensures value { IfOk result (λ y. y ≡ record { members = members; rows = rows.items }) }
        ensures fault { (f : NetworkFault) → (result ≡ Err f) ↔ IsFault members rows.items f }
    {
        if members > MOST_MEMBERS {
            return Err(NetworkFault::Members);
        }
        check_rows(members, &rows)?;
        Ok(Network { members, rows })
    }

    /// The number of members.
    pub fn members(&self) -> u16
        ensures value { result ≡ self.now.members }
        ensures network { IsNetwork self.now }
    {
        self.members
    }

    /// The rows, in rising order of seller and buyer.
    pub fn rows(&self) -> &[Row]
        ensures value { result.now ≡ self.now.rows }
        ensures rows { AreRows self.now.members result.now }
        ensures network { IsNetwork self.now }
    {
        &self.rows
    }

    /// The amount that the seller sold to the buyer, found by binary search.
    pub fn amount(&self, seller: u16, buyer: u16) -> u64
        ensures { result ≡ at self.now seller buyer }
    {
        amount_at(
            &self.rows,
            first_row(&self.rows, seller, buyer),
            seller,
            buyer,
        )
    }

    /// An equal network in memory of its own.
    pub fn copy(&self) -> Result<Network, AllocError>
        ensures { IfOk result (λ y. y ≡ self.now) }
    {
        let rows = self.rows.clone()?;
        Ok(Network {
            members: self.members,
            rows,
        })
    }

    /// The rows again, without memory.
    pub fn into_rows(self) -> Vec<Row>
        ensures value { result.items ≡ self.rows }
        ensures network { IsNetwork self }
    {
        self.rows
    }
}

/// The first fault among the rows.
fn check_rows(members: u16, rows: &[Row]) -> Result<(), NetworkFault>
    requires { members ≤ MOST_MEMBERS }
    ensures { MatchResult result (λ _. AreRows members rows.now) (IsFault members rows.now) }
{
    let mut sum = 0;
    for at in 0..rows.len() {
        let row = rows[at];
        if row.seller >= members || row.buyer >= members {
            return Err(NetworkFault::Member { at });
        }
        if row.seller == row.buyer {
            return Err(NetworkFault::Same { at });
        }
        if row.amount == 0 {
            return Err(NetworkFault::Zero { at });
        }
        if at > 0 && place_of(rows[at - 1]) >= place_of(row) {
            return Err(NetworkFault::Order { at });
        }
        if row.amount > MOST_GROSS - sum {
            return Err(NetworkFault::Gross { at });
        }
        sum += row.amount;
    }
    Ok(())
}
