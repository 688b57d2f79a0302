//! A solver by cycle cancelling (Klein's algorithm; Ahuja, Magnanti and Orlin, *Network Flows*). It starts
//! from the old network. While the residual graph has a cycle of negative cost, which Bellman-Ford rounds
//! find, it moves as much round the cycle as the cycle can take: nets stay, and the gross falls. Where there
//! is none, the rounds give labels that no arc can lower, and their negations are the potentials of a
//! certificate.
#![tactic(auto)]

mod cancel;
mod round;
mod search;
mod settle;
mod solver;
mod trace;

pub use solver::CycleCancel;
