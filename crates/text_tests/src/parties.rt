//! Who takes part, for tests of texts.

use command_types::{FileFault, Roster};
use std::alloc::Global;
use trade_file::read_roster;

/// The dealers A and BANK-7, and the product P, which matures on 2031-06-30.
pub(crate) fn two_dealers(alloc: Global) -> Result<Roster, FileFault> {
    read_roster(
        alloc,
        b"name,role,key\nA,dealer,KA\nBANK-7,dealer,KB\nP,product,2031-06-30\n",
    )
}

/// The dealers A, B and C, and the product P, which matures on 2031-06-30.
pub(crate) fn three_dealers(alloc: Global) -> Result<Roster, FileFault> {
    read_roster(
        alloc,
        b"name,role,key\nA,dealer,KA\nB,dealer,KB\nC,dealer,KC\nP,product,2031-06-30\n",
    )
}
