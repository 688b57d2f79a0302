//! What a standby reads and writes.
#![tactic(auto)]

#[cfg(test)]
mod inbox;
#[cfg(test)]
mod lines;
#[cfg(test)]
mod names;
#[cfg(test)]
mod replies;
