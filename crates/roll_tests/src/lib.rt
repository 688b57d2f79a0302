//! The tests of rolls: worked rows over rosters that are read from text. All call public items alone.
#![tactic(auto)]

#[cfg(test)]
mod cases;
#[cfg(test)]
mod refusals;
#[cfg(test)]
mod rolls;
#[cfg(test)]
mod sameness;
#[cfg(test)]
mod sheets;
