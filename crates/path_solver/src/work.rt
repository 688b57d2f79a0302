//! What changes as amounts are sent.

use crate::balance::Balance;
use crate::neighbours::Neighbours;
use residual_graph::Residual;

/// The pairs, between which members arcs with room lead, and what is left to send.
#[derive(Drop)]
pub struct Work {
    pub residual: Residual,
    pub neighbours: Neighbours,
    pub balance: Balance,
}
