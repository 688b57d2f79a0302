//! The gross that is left where each two members net what they sold to each other. A cursor for each member walks
//! what it sold: the rows' sellers rise, so for each row the buyer's cursor goes on to what it sold back.

ghost use Rattle.std.specs.Prelude.{◌≡◌, ℕ, ◌+◌, ◌*◌, ◌<◌, ◌≤◌, length, slice_index_or};
ghost use Rattle.network_laws.specs.declared.rows.Row.{Row};
ghost use Rattle.network_laws.specs.Networks.{bilateral, amount_in, place, IsRising, IsCursor};
ghost use Rattle.net_positions.specs.Cursors.{AreCursors};
ghost use Rattle.units_core.specs.declared.limits.TheConstants.{MOST_MEMBERS};

use network_laws::{Network, Row, amount_at, first_row};

/// The most members of a network.
const PLACES: usize = 256;

/// The sum over the unordered pairs of members of what their two amounts differ by. One pass over the
/// rows, with a cursor for each member.
pub fn bilateral_gross(network: &Network) -> u64
    ensures { result ≡ bilateral network.now }
{
    let rows = network.rows();
    let mut cursors = first_cursors(rows, network.members());
    let mut sum = 0;
    for row in rows {
        sum += row
            .amount
            .saturating_sub(amount_back(&mut cursors, rows, *row));
    }
    sum
}

// For each member the cursor of its first row.
fn first_cursors(rows: &[Row], members: u16) -> [usize; 256]
    requires rising { IsRising rows.now }
    requires few { members ≤ MOST_MEMBERS }
    ensures { AreCursors rows.now result 0 }
{
    let mut cursors = [0; PLACES];
    for member in 0..members {
        cursors[member as usize] = first_row(rows, member, 0);
    }
    cursors
}

// What a row's buyer sold to its seller.
fn amount_back(cursors: &mut [usize], rows: &[Row], row: Row) -> u64
    requires rising { IsRising rows.now }
    requires buyer { row.buyer < MOST_MEMBERS }
    requires cursors { AreCursors rows.now cursors.old row.seller }
    ensures amount { result ≡ amount_in rows.now row.buyer row.seller }
    ensures cursors { AreCursors rows.now cursors.new row.seller }
{
    let place = row.buyer as usize;
    let at = cursor_from(rows, cursors[place], row.buyer, row.seller);
    cursors[place] = at;
    amount_at(rows, at, row.buyer, row.seller)
}

// The cursor of a pair, from that of an earlier pair on.
fn cursor_from(rows: &[Row], from: usize, seller: u16, buyer: u16) -> usize
    requires rising { IsRising rows.now }
    requires within { from ≤ length rows.now }
    requires before { (k : ℕ) (d : Row) → k < from → place (slice_index_or rows.now k d) < seller * 65536 + buyer }
    ensures end { result ≤ length rows.now }
    ensures cursor { IsCursor rows.now result (seller * 65536 + buyer) }
{
    let wanted = seller as u32 * 65536 + buyer as u32;
    let mut at = from;
    while at < rows.len() {
        let row = rows[at];
        if row.seller as u32 * 65536 + row.buyer as u32 >= wanted {
            break;
        }
        at += 1;
    }
    at
}
