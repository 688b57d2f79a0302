//! The words that the program is called with, and what they ask for.
#![tactic(auto)]

mod count;
mod forms;
mod options;
mod parting;
mod words;

pub use count::Count;
pub use forms::{
    CheckWords, Form, MarketFiles, ReplayWords, RollWords, ScriptWords, ServiceWords, StandbyWords,
};
pub use words::read_words;
