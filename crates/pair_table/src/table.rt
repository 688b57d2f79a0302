//! The sums of ordered pairs of members, in a table with a line of 256 cells for each seller, and for each seller the
//! members to which it sold something, so that a network costs no walk over all cells.
ghost use Rattle.std.specs.Prelude.{ℕ, ◌≡◌, ◌≢◌, ◌+◌, ◌*◌, ◌<◌, ◌≤◌, ◌^◌, ◌++◌, ◌==◌, ◌&&◌, length, IfOk, OnOk, if◌then◌else◌};
ghost use Rattle.network_laws.specs.Networks.{IsNetwork, at};
ghost use Rattle.command_types.specs.Books.{listed_below, listed_pairs, network_by};
ghost use Rattle.pair_table.specs.PairSums.{sum_in, gross_in, cell_row};
ghost use Rattle.pair_table.specs.Buyers.{HasBuyers, AreBuyers, AreEmpty, IsCleared};
ghost use Rattle.units_core.specs.declared.limits.TheConstants.{MOST_GROSS, MOST_MEMBERS};

use member_set::MemberSet;
use network_laws::{Network, Row};
use std::alloc::{AllocError, Global};
use std::marker::Model;
use units_core::{MOST_MEMBERS, MemberNo};

/// The cells of a seller's line: one for each member that there may be.
const LINE: usize = MOST_MEMBERS as usize;

// Adds a row for each member to which the seller sold something.
fn add_seller(
    rows: &mut Vec<Row>,
    sums: &[u64],
    buyers: MemberSet,
    seller: u16,
    members: u16,
) -> Result<(), AllocError>
    requires few { members ≤ MOST_MEMBERS }
    requires seller { seller < members }
    requires size { length sums.now ≡ members * 256 }
    requires buyers { HasBuyers members sums.now seller buyers }
    ensures { OnOk result (rows.new.items ≡ rows.old.items ++ listed_below members (cell_row sums.now seller)) }
{
    let mut left = buyers;
    while let Some(buyer) = left.lowest() {
        left.drop_member(buyer);
        let amount = sums[seller as usize * LINE + buyer as usize];
        if amount > 0 {
            rows.push(Row {
                seller,
                buyer,
                amount,
            })?;
        }
    }
    Ok(())
}

// The rows of all pairs, in their order.
fn rows_of(
    alloc: Global,
    sums: &[u64],
    buyers: &[MemberSet],
    members: u16,
) -> Result<Vec<Row>, AllocError>
    requires few { members ≤ MOST_MEMBERS }
    requires size { length sums.now ≡ members * 256 }
    requires buyers { AreBuyers members sums.now buyers.now }
    ensures { IfOk result (λ rows. rows.items ≡ listed_pairs members (cell_row sums.now)) }
{
    let mut rows = Vec::new(alloc);
    for seller in 0..members {
        add_seller(&mut rows, sums, buyers[seller as usize], seller, members)?;
    }
    Ok(rows)
}

// For each seller no buyer.
fn no_buyers(alloc: Global, members: u16) -> Result<Vec<MemberSet>, AllocError>
    ensures one_each { IfOk result (λ buyers. length buyers.items ≡ members) }
    ensures none { IfOk result (λ buyers. AreEmpty buyers.items) }
{
    let mut buyers = Vec::new(alloc);
    for _seller in 0..members {
        buyers.push(MemberSet::new())?;
    }
    Ok(buyers)
}

// Sets a seller's sums to 0.
fn clear_seller(sums: &mut [u64], buyers: MemberSet, seller: u16, members: u16)
    requires few { members ≤ MOST_MEMBERS }
    requires seller { seller < members }
    requires size { length sums.old ≡ members * 256 }
    requires buyers { HasBuyers members sums.old seller buyers }
    ensures { IsCleared members seller (seller + 1) sums.old sums.new }
{
    let mut left = buyers;
    while let Some(buyer) = left.lowest() {
        left.drop_member(buyer);
        sums[seller as usize * LINE + buyer as usize] = 0;
    }
}

// Sets the sums of all pairs to 0, and leaves no seller a buyer.
fn clear_all(sums: &mut [u64], buyers: &mut [MemberSet], members: u16)
    requires few { members ≤ MOST_MEMBERS }
    requires size { length sums.old ≡ members * 256 }
    requires buyers { AreBuyers members sums.old buyers.old }
    ensures sums { IsCleared members 0 members sums.old sums.new }
    ensures buyers { AreBuyers members sums.new buyers.new }
{
    for place in 0..members {
        clear_seller(sums, buyers[place as usize], place, members);
        buyers[place as usize] = MemberSet::new();
    }
}

/// For each ordered pair of different members the sum of what was added for it: what the one sold to the other. There
/// are at most 256 members, and all sums together, the gross notional, come to at most 10^18.
#[derive(Drop)]
pub struct PairTable {
    members: u16,
    sums: Vec<u64>,
    /// For each seller the members to which an amount was added.
    buyers: Vec<MemberSet>,
}

impl Model for PairTable {
    ghost use Rattle.pair_table.specs.PairSums.{PairSums, IsPairTable};
    ghost use Rattle.pair_table.specs.Buyers.{AreBuyers};

    ghost Value = { PairSums };

    ghost view = { λ t. record { members = t.members; sums = t.sums.items } };

    ghost invariant = { λ t. IsPairTable (record { members = t.members; sums = t.sums.items }) × AreBuyers t.members t.sums.items t.buyers.items };
}

impl PairTable {
    /// A table in which each sum is 0. The only error is want of memory.
    pub fn new(alloc: Global, members: u16) -> Result<PairTable, AllocError>
        requires { members ≤ MOST_MEMBERS }
        ensures members { IfOk result (λ table. table.members ≡ members) }
        ensures sums { IfOk result (λ table. (i j : ℕ) → sum_in table i j ≡ 0) }
        ensures gross { IfOk result (λ table. gross_in table ≡ 0) }
    {
        let sums = vec![in alloc; 0u64; members as usize * LINE]?;
        let buyers = no_buyers(alloc, members)?;
        Ok(PairTable {
            members,
            sums,
            buyers,
        })
    }

    /// Adds an amount to what the seller sold to the buyer. It takes no memory.
    pub fn add(&mut self, seller: MemberNo, buyer: MemberNo, amount: u64)
        requires seller { seller < self.old.members }
        requires buyer { buyer < self.old.members }
        requires different { seller ≢ buyer }
        requires bound { gross_in self.old + amount ≤ MOST_GROSS }
        ensures members { self.new.members ≡ self.old.members }
        ensures sums { (i j : ℕ) → i < self.old.members → j < self.old.members → sum_in self.new i j ≡ sum_in self.old i j + (if (seller == i) && (buyer == j) then amount else 0) }
        ensures gross { gross_in self.new ≡ gross_in self.old + amount }
    {
        self.sums[seller.index() * LINE + buyer.index()] += amount;
        self.buyers[seller.index()].put(buyer.0);
    }

    /// Each sum is 0 again. It takes no memory, and goes to the pairs alone to which something was added.
    pub fn clear(&mut self)
        ensures members { self.new.members ≡ self.old.members }
        ensures sums { (i j : ℕ) → i < self.new.members → j < self.new.members → sum_in self.new i j ≡ 0 }
        ensures gross { gross_in self.new ≡ 0 }
    {
        clear_all(&mut self.sums, &mut self.buyers, self.members);
    }

    /// The network in which each pair has its sum: a row for each sum above 0, in rising order. The only error is want
    /// of memory.
    pub fn network(&self) -> Result<Network, AllocError>
        ensures value { IfOk result (λ network. network ≡ network_by self.now.members (sum_in self.now)) }
        ensures network { IfOk result IsNetwork }
        ensures amounts { IfOk result (λ network. (i j : ℕ) → i < self.now.members → j < self.now.members → at network i j ≡ sum_in self.now i j) }
    {
        let rows = rows_of(
            *self.sums.allocator(),
            &self.sums,
            &self.buyers,
            self.members,
        )?;
        match Network::from_rows(self.members, rows) {
            Ok(network) => Ok(network),
            Err(_) => unreachable!(),
        }
    }
}
