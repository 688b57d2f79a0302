//! The tests of what is computed: figures of networks, tables of pairs, residual graphs, both solvers, limits,
//! certificates, proposals, votes and plans, and the market of a trade file. All call public items alone.
#![tactic(auto)]

#[cfg(test)]
mod bounded;
#[cfg(test)]
mod certificates;
#[cfg(test)]
mod counted;
#[cfg(test)]
mod figures;
#[cfg(test)]
mod files;
#[cfg(test)]
mod generated;
#[cfg(test)]
mod lattices;
#[cfg(test)]
mod least;
#[cfg(test)]
mod networks;
#[cfg(test)]
mod own_parts;
#[cfg(test)]
mod pairs;
#[cfg(test)]
mod parts;
#[cfg(test)]
mod plans;
#[cfg(test)]
mod problems;
#[cfg(test)]
mod proposals;
#[cfg(test)]
mod residual;
#[cfg(test)]
mod shared_proposals;
#[cfg(test)]
mod solved;
#[cfg(test)]
mod solvers;
#[cfg(test)]
mod summaries;
#[cfg(test)]
mod threes;
#[cfg(test)]
mod tolerances;
#[cfg(test)]
mod verdicts;
#[cfg(test)]
mod votes;
#[cfg(test)]
mod wide;
#[cfg(test)]
mod workers;
