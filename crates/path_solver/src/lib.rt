//! A solver by successive shortest paths (Ahuja, Magnanti and Orlin, *Network Flows*). It starts with every
//! pair at its lower bound. Members whose net position is then too small have to send, and those whose net
//! position is too large have to receive: these have the price 0, and all others 1 if somebody has. An arc is tight where its
//! cost is the price that it bridges. First amounts go straight, over the pairs of one that has to send and one
//! that has to receive, which are tight. While tight arcs with room lead from members that have to send to such
//! that have to receive, amounts go along those paths that have the fewest arcs. Where none leads there, the
//! prices of the members from which no tight arcs lead to one that has to receive rise by 1, and again until a tight
//! arc leads from one of them to another member. The search then goes on from the lowest level that such an arc enters.
//! So no arc with room ever costs less than the price that it bridges, and in the end the prices are the potentials of a
//! certificate.
#![tactic(auto)]

mod balance;
mod direct;
mod entries;
mod groups;
mod labels;
mod layers;
mod lowest;
mod neighbours;
mod outside;
mod paths;
mod phases;
mod prices;
mod room;
mod search;
mod sending;
mod settle;
mod solver;
mod stand;
mod walk;
mod work;

pub use solver::PathSolver;
