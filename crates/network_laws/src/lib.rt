//! Networks of amounts between members, their limits, the certificate of a least network, and its laws.
//!
//! A network says what each member sold to each other one. Compression replaces it by a network with
//! the same net positions and less gross notional (D'Errico and Roukny, *Compressing Over-the-Counter
//! Markets*). Potentials certify that no network within the limits that keeps every net position has
//! less gross: the duality of minimum-cost flow (Ahuja, Magnanti and Orlin, *Network Flows*).
#![tactic(auto)]

mod clash;
mod laws;
mod limits;
mod network;
mod problem;
mod rows;
mod solution;
mod solver;
mod walk;

pub use clash::Clash;
pub use laws::{
    bound_is_below, bound_is_gross, certificate_is_shared, certified_is_least,
    free_limits_reach_floor, no_clash_is_certified, no_cycle_is_left,
};
pub use limits::{Bounds, LimitFault, Limits};
pub use network::{Network, NetworkFault};
pub use problem::Problem;
pub use rows::{LimitRow, Row};
pub use solution::Solution;
pub use solver::Solver;
pub use walk::{amount_at, bounds_at, first_limit, first_row, next_limit, next_row};
