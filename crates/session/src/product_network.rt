//! The network of a product, from the rows of a draft.

ghost use Rattle.std.specs.Prelude.{◌≡◌, ◌+◌, ◌≤◌, ◌^◌, length, true, IfOk};
ghost use Rattle.std.specs.Str.{bytes_eq};
ghost use Rattle.pair_table.specs.PairSums.{gross_in};
ghost use Rattle.session.specs.Drafts.{row_of, draft_network};
ghost use Rattle.session.specs.Kept.{kept_rows};
ghost use Rattle.session.specs.Places.{product_part, HasMore, IsPlaceOf};
ghost use Rattle.units_core.specs.declared.limits.TheConstants.{MOST_GROSS};

use crate::draft_rows::{DraftRows, PairKey};
use command_types::Roster;
use network_laws::Network;
use pair_table::PairTable;
use std::alloc::{AllocError, Global};
use units_core::{MemberNo, Name};

// The place of the member with this name; none where no member has it.
fn place_of(roster: &Roster, name: &Name) -> Option<MemberNo>
    ensures { IsPlaceOf roster.now.members name.now result }
{
    // A roster's members say that their names differ.
    let _members = roster.members();
    roster.member_named(name)
}

// Adds a row to the sums of a product, if it is the product's and its parties are members.
fn add_row(table: &mut PairTable, roster: &Roster, product: &Name, key: &PairKey, amount: u64)
    requires members { table.old.members ≡ length roster.now.members }
    requires parties { bytes_eq key.now.seller key.now.buyer ≡ true → amount ≡ 0 }
    requires bound { gross_in table.old + product_part product.now (row_of (key.now, amount)) ≤ MOST_GROSS }
    ensures { HasMore roster.now.members product.now (row_of (key.now, amount)) table.old table.new }
{
    if !key.product.is(product) {
        return;
    }
    if amount == 0 {
        return;
    }
    let Some(seller) = place_of(roster, &key.seller) else {
        return;
    };
    let Some(buyer) = place_of(roster, &key.buyer) else {
        return;
    };
    table.add(seller, buyer, amount);
}

/// The network that a draft has for a product: a row for each pair of members that the draft has an amount for. It goes
/// over the draft's rows once. The only error is want of memory.
pub fn product_network(
    alloc: Global,
    roster: &Roster,
    draft: &DraftRows,
    product: &Name,
) -> Result<Network, AllocError>
    ensures { IfOk result (λ network. network ≡ draft_network roster.now.members (kept_rows draft.now) product.now) }
{
    let mut table = PairTable::new(alloc, roster.members().len() as u16)?;
    for place in 0..draft.len() {
        let (key, amount) = draft.row(place);
        add_row(&mut table, roster, product, &key, amount);
    }
    table.network()
}
