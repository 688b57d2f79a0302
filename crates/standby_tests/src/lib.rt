//! A standby over a peer in memory, and over bytes.
#![tactic(auto)]

#[cfg(test)]
mod compares;
#[cfg(test)]
mod follows;
#[cfg(test)]
mod houses;
#[cfg(test)]
mod replies;
#[cfg(test)]
mod streams;
#[cfg(test)]
mod trials;
