//! Tests of the trades' book, of the machine and the laws of its histories, and of the lock round it.
#![tactic(auto)]

#[cfg(test)]
mod histories;
#[cfg(test)]
mod laws;
#[cfg(test)]
mod lock;
#[cfg(test)]
mod machine;
#[cfg(test)]
mod market;
#[cfg(test)]
mod places;
#[cfg(test)]
mod trade_book;
