//! One product of a proposal.

use network_laws::Solution;

/// A product's least network with its potentials, and the figures that were written beside it, in the contract's
/// currency unit. Reading does not compare the figures with the networks.
#[derive(Drop)]
pub struct ProposalPart {
    pub solution: Solution,
    /// The gross of the original network.
    pub gross: u64,
    /// The gross of the least network.
    pub least: u64,
    /// The sum of the positive net positions.
    pub floor_m: u64,
    /// The bilateral gross of the original network.
    pub bilateral: u64,
    /// The dual bound.
    pub bound: u64,
}
