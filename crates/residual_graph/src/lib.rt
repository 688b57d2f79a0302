//! The residual graph of a network within its limits: for each pair, what its amount can still grow and
//! what of it can be taken back (Ahuja, Magnanti and Orlin, *Network Flows*). Solvers move amounts
//! along its arcs.
#![tactic(auto)]

mod arcs;
mod build;
mod flow;
mod next_row;
mod residual;
mod steps;

pub use flow::Flow;
pub use residual::Residual;
pub use steps::Steps;
