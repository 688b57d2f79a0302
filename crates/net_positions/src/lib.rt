//! The figures of a network: net positions, gross notional, the sum of the positive net positions, the
//! excess and the bilaterally netted gross. They are the notions of D'Errico and Roukny, *Compressing
//! Over-the-Counter Markets*. All amounts are in the contract's currency unit, and no call takes memory.
#![tactic(auto)]

mod bilateral;
mod figures;
mod positions;

pub use bilateral::bilateral_gross;
pub use figures::{excess, floor_m, gross, net};
pub use positions::{Positions, positions_of};
