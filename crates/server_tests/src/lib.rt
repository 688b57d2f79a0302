//! What no clause says of the program and of sessions: whole texts, byte for byte, and what threads see of one another.
#![tactic(auto)]

#[cfg(test)]
mod failing_streams;
#[cfg(test)]
mod file_faults;
#[cfg(test)]
mod folds;
#[cfg(test)]
mod follows;
#[cfg(test)]
mod gates;
#[cfg(test)]
mod gathering;
#[cfg(test)]
mod journal_faults;
#[cfg(test)]
mod journals;
#[cfg(test)]
mod line_ends;
#[cfg(test)]
mod lock;
#[cfg(test)]
mod market_files;
#[cfg(test)]
mod memory;
#[cfg(test)]
mod openings;
#[cfg(test)]
mod paced;
#[cfg(test)]
mod premises;
#[cfg(test)]
mod program;
#[cfg(test)]
mod replays;
#[cfg(test)]
mod rolls;
#[cfg(test)]
mod served;
#[cfg(test)]
mod served_seats;
#[cfg(test)]
mod sizes;
#[cfg(test)]
mod sockets;
#[cfg(test)]
mod solves;
#[cfg(test)]
mod sources;
#[cfg(test)]
mod stopped_cycles;
#[cfg(test)]
mod together;
#[cfg(test)]
mod torn_cycles;
#[cfg(test)]
mod two_sessions;
#[cfg(test)]
mod unsolved;
#[cfg(test)]
mod waiting_seats;
#[cfg(test)]
mod words;
