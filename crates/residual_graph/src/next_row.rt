//! A walk over the rows of a network in step with the rows of its limits. It keeps the pair of the row that comes next, so
//! that a pair without a row costs one comparison.

ghost use Rattle.std.specs.Prelude.{◌≡◌, ◌+◌, ◌*◌, ◌<◌, ◌≤◌, ◌↔◌, length, IsTrue};
ghost use Rattle.residual_graph.specs.NextRow.{IsNextRow, IsRowOf, key_of};

use network_laws::{LimitRow, Row};

/// The row that comes next, and the key of its pair; where no row is left, any key.
#[derive(Clone, Copy)]
pub(super) struct NextRow {
    pub at: usize,
    key: u32,
}

/// The key of a pair: its seller and its buyer as one number, in the order in which a row has them in memory.
#[inline(always)]
fn key_of(seller: u16, buyer: u16) -> u32
    ensures key { result ≡ key_of seller buyer }
    ensures seller { seller < 65536 }
{
    buyer as u32 * 65536 + seller as u32
}

impl NextRow {
    /// The row of this number.
    #[inline(always)]
    pub(super) fn of(rows: &[Row], at: usize) -> NextRow
        requires { at ≤ length rows.now }
        ensures at { result.at ≡ at }
        ensures next { IsNextRow rows.now result }
    {
        if at < rows.len() {
            NextRow {
                at,
                key: key_of(rows[at].seller, rows[at].buyer),
            }
        } else {
            NextRow { at, key: 0 }
        }
    }

    /// Whether it is the row of a pair with limits.
    #[inline(always)]
    pub(super) fn is_of(self, rows: &[Row], limit: &LimitRow) -> bool
        requires { IsNextRow rows.now self }
        ensures { IsTrue result ↔ IsRowOf rows.now self.at limit.now }
    {
        if key_of(limit.seller, limit.buyer) != self.key {
            return false;
        }
        self.at < rows.len()
    }
}
