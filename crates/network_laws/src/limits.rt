//! Limits: bounds of pairs, in rising order.

ghost use Rattle.std.specs.Prelude.{◌≡◌, ◌≢◌, ◌↔◌, ℕ, ◌+◌, ◌*◌, ◌<◌, ◌≤◌, length, MatchResult, IsOk, IfOk};
ghost use Rattle.network_laws.specs.Limits.{LimitsData, AreLimits, AreLimitRows, IsRisingLimits, limit_place, lower, upper};
ghost use Rattle.network_laws.specs.LimitFaults.{IsLimitFault};
ghost use Rattle.units_core.specs.declared.limits.TheConstants.{MOST_MEMBERS};

use crate::rows::LimitRow;
use crate::walk::{bounds_at, first_limit, limit_place_of};
use std::alloc::AllocError;
use std::marker::Model;
use thiserror::Error;
use units_core::MOST_MEMBERS;

/// What keeps rows from being limits. `at` is the place of the first row that is bad, from 0; of one
/// row's faults the first in this order is told.
#[derive(Clone, Copy, Debug, PartialEq, Eq, Error)]
pub enum LimitFault {
    /// There are more than 256 members.
    #[error("more than 256 members")]
    Members,
    /// The seller or the buyer is not below the number of members.
    #[error("limit {at}: no such member")]
    Member { at: usize },
    /// Seller and buyer are the same.
    #[error("limit {at}: seller and buyer are the same")]
    Same { at: usize },
    /// The row does not stand behind the one before it.
    #[error("limit {at}: out of order")]
    Order { at: usize },
    /// The lower bound is above the upper one.
    #[error("limit {at}: the lower bound is above the upper one")]
    Crossed { at: usize },
}

/// The least and the most that a seller may sell to a buyer, in the contract's currency unit. Where
/// `upper` is `None` there is no upper bound.
#[derive(Clone, Copy, PartialEq, Eq)]
pub struct Bounds {
    pub lower: u64,
    pub upper: Option<u64>,
}

/// The bounds of each ordered pair of different members, in the contract's currency unit. Rows rise by
/// seller and then buyer, which are different and below the number of members, at most 256; no lower
/// bound is above its upper one. A pair without a row has the bounds 0 and 0.
#[derive(Drop)]
pub struct Limits {
    members: u16,
    rows: Vec<LimitRow>,
}

impl Model for Limits {
    ghost use Rattle.network_laws.specs.Limits.{LimitsData, AreLimits};

    ghost Value = { LimitsData };

    ghost view = { λ a. record { members = a.members; rows = a.rows.items } };

    ghost invariant = { λ a. AreLimits (record { members = a.members; rows = a.rows.items }) };
}

impl Limits {
    /// The limits of these rows, or what is wrong first: too many members, else the first bad row. On a
    /// fault the rows are dropped.
    pub fn from_rows(members: u16, rows: Vec<LimitRow>) -> Result<Limits, LimitFault>
        ensures good { IsOk result ↔ AreLimits (record { members = members; rows = rows.items }) }
        ensures value { IfOk result (λ y. y ≡ record { members = members; rows = rows.items }) }
        ensures fault { (f : LimitFault) → (result ≡ Err f) ↔ IsLimitFault members rows.items f }
    {
        if members > MOST_MEMBERS {
            return Err(LimitFault::Members);
        }
        check_limit_rows(members, &rows)?;
        Ok(Limits { members, rows })
    }

    /// The number of members.
    pub fn members(&self) -> u16
        ensures value { result ≡ self.now.members }
        ensures limits { AreLimits self.now }
    {
        self.members
    }

    /// The rows, in rising order of seller and buyer.
    pub fn rows(&self) -> &[LimitRow]
        ensures value { result.now ≡ self.now.rows }
        ensures rows { AreLimitRows self.now.members result.now }
        ensures limits { AreLimits self.now }
    {
        &self.rows
    }

    /// The bounds of what the seller may sell to the buyer, found by binary search.
    pub fn bounds(&self, seller: u16, buyer: u16) -> Bounds
        ensures lower { result.lower ≡ lower self.now seller buyer }
        ensures upper { result.upper ≡ upper self.now seller buyer }
    {
        bounds_at(
            &self.rows,
            first_limit(&self.rows, seller, buyer),
            seller,
            buyer,
        )
    }

    /// Equal limits in memory of their own.
    pub fn copy(&self) -> Result<Limits, AllocError>
        ensures { IfOk result (λ y. y ≡ self.now) }
    {
        let rows = self.rows.clone()?;
        Ok(Limits {
            members: self.members,
            rows,
        })
    }

    /// The rows again, without memory.
    pub fn into_rows(self) -> Vec<LimitRow>
        ensures value { result.items ≡ self.rows }
        ensures limits { AreLimits self }
    {
        self.rows
    }
}

/// The first fault among the rows.
fn check_limit_rows(members: u16, rows: &[LimitRow]) -> Result<(), LimitFault>
    requires { members ≤ MOST_MEMBERS }
    ensures { MatchResult result (λ _. AreLimitRows members rows.now) (IsLimitFault members rows.now) }
{
    for at in 0..rows.len() {
        let row = rows[at];
        if row.seller >= members || row.buyer >= members {
            return Err(LimitFault::Member { at });
        }
        if row.seller == row.buyer {
            return Err(LimitFault::Same { at });
        }
        if at > 0 && limit_place_of(rows[at - 1]) >= limit_place_of(row) {
            return Err(LimitFault::Order { at });
        }
        if let Some(upper) = row.upper {
            if upper < row.lower {
                return Err(LimitFault::Crossed { at });
            }
        }
    }
    Ok(())
}
