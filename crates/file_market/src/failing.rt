//! What is wrong with a proposal.

use network_laws::Clash;
use units_core::ProductNo;

/// What keeps a product of a proposal from passing.
#[derive(Clone, Copy)]
pub enum Failure {
    /// The first clash of its network with the limits, the old net positions and its potentials.
    Clash(Clash),
    /// Its network is certified, and a figure beside it is not right.
    Figures,
}

/// A product that fails, and why.
#[derive(Clone, Copy)]
pub struct Failing {
    pub product: ProductNo,
    pub failure: Failure,
}
