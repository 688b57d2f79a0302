//! Cancelling cycles until there is none.

ghost use Rattle.std.specs.Prelude.{◌≡◌, ◌<◌, IfOk};
ghost use Rattle.cycle_cancel.specs.Cancels.{IsSettled};

use crate::cancel::cancel;
use crate::search::{Found, search};
use residual_graph::{Residual, Steps};
use std::alloc::{AllocError, Global};
use std::sync::ledger::{Blank, Ledger};

/// Labels that no arc can lower, and whether a cycle was cancelled before.
#[derive(Drop)]
pub struct Settled {
    pub labels: Vec<i32>,
    pub cancelled: bool,
}

/// The most room that an arc is asked for: a power of 2 that is above most amounts.
const MOST: u64 = 1_152_921_504_606_846_976;

/// Cancels cycles until the labels settle. At first only arcs count that have much room, and whenever the labels settle,
/// those with half as much count too, down to 1: so few cycles move little. Each lowers the gross by at least 1, so it
/// ends.
pub fn settle<L: Ledger>(
    alloc: Global,
    residual: &mut Residual,
    blank: Blank,
) -> Result<Settled, AllocError>
    requires name { blank.name ≡ L.name }
    requires parts { blank.parts ≡ L.parts }
    requires some { 0 < blank.parts }
    ensures { IfOk result (IsSettled residual.old residual.new) }
{
    let mut steps = Steps::<L>::new(blank);
    let mut cancelled = false;
    let mut least = MOST;
    'rounds: loop {
        match search(alloc, residual, least)? {
            Found::Labels(labels) => {
                if least == 1 {
                    return Ok(Settled { labels, cancelled });
                }
                least /= 2;
            }
            Found::Cycle(arcs) => {
                cancel(residual, &arcs, &mut steps);
                cancelled = true;
            }
        }
    }
}
