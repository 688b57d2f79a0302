//! The tests of rosters, of the text of sessions, and of roster and trade files. All call public items alone.
#![tactic(auto)]

#[cfg(test)]
mod cut_lines;
#[cfg(test)]
mod cycle_lines;
#[cfg(test)]
mod details;
#[cfg(test)]
mod generated_markets;
#[cfg(test)]
mod heads;
#[cfg(test)]
mod lines;
#[cfg(test)]
mod names;
#[cfg(test)]
mod parties;
#[cfg(test)]
mod refusals;
#[cfg(test)]
mod roster_files;
#[cfg(test)]
mod rosters;
#[cfg(test)]
mod shared_files;
#[cfg(test)]
mod sums;
#[cfg(test)]
mod trade_files;
#[cfg(test)]
mod wrong_words;
