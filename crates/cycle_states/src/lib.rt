//! The machine that answers one command at a time, and a desk over it without a journal.
#![tactic(auto)]

mod base_fault;
mod laws;
mod machine;
mod offers;
mod plain_desk;
mod recorded;

pub use base_fault::BaseFault;
pub use laws::effect_is_next;
pub use machine::{Decision, LastCycle, Machine, Ready, Undo};
pub use offers::{OpenAsk, Places, filled, is_begin, open_ask};
pub use plain_desk::PlainDesk;
pub use recorded::is_recorded;
