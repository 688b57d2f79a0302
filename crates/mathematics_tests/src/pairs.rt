//! Tables of pairs, from outside.

ghost use Rattle.std.specs.Prelude.{◌≤◌};

use crate::networks::{has_rows, so};
use pair_table::PairTable;
use std::alloc::Global;
use std::test::Fail;
use units_core::MemberNo;

#[test]
fn amounts_of_a_pair_add_up_and_rows_rise(rt: HostRuntime) -> Result<(), Fail> {
    let mut table = PairTable::new(rt.alloc(), 256)?;
    table.add(MemberNo(255), MemberNo(0), 4);
    table.add(MemberNo(0), MemberNo(255), 1);
    table.add(MemberNo(0), MemberNo(1), 7);
    table.add(MemberNo(255), MemberNo(0), 5);
    table.add(MemberNo(1), MemberNo(2), 0);
    let network = table.network()?;
    let sums = [(0, 1, 7), (0, 255, 1), (255, 0, 9)];
    let holds = network.members() == 256 && has_rows(&network, &sums);
    so(holds, "the network is otherwise")
}

fn has_no_rows(alloc: Global, members: u16) -> Result<(), Fail>
    requires { members ≤ 256 }
{
    let network = PairTable::new(alloc, members)?.network()?;
    let holds = network.members() == members && has_rows(&network, &[]);
    so(holds, "the network is otherwise")
}

#[test]
fn a_table_without_amounts_has_no_rows(rt: HostRuntime) -> Result<(), Fail> {
    has_no_rows(rt.alloc(), 0)?;
    has_no_rows(rt.alloc(), 1)?;
    has_no_rows(rt.alloc(), 256)
}

#[test]
fn the_most_gross_is_taken(rt: HostRuntime) -> Result<(), Fail> {
    let mut table = PairTable::new(rt.alloc(), 2)?;
    table.add(MemberNo(1), MemberNo(0), 999_999_999_999_999_999);
    table.add(MemberNo(0), MemberNo(1), 1);
    let network = table.network()?;
    let sums = [(0, 1, 1), (1, 0, 999_999_999_999_999_999)];
    so(has_rows(&network, &sums), "the network is otherwise")
}

/// What was added before counts no more, and no member keeps a buyer.
#[test]
fn a_cleared_table_starts_anew(rt: HostRuntime) -> Result<(), Fail> {
    let mut table = PairTable::new(rt.alloc(), 256)?;
    table.add(MemberNo(255), MemberNo(0), 4);
    table.add(MemberNo(255), MemberNo(254), 5);
    table.clear();
    let cleared = has_rows(&table.network()?, &[]);
    table.add(MemberNo(255), MemberNo(254), 6);
    let begun = has_rows(&table.network()?, &[(255, 254, 6)]);
    so(cleared && begun, "the network is otherwise")
}
