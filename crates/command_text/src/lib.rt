//! The text of a session: lines are read into what they say, and head lines of replies are written.
#![tactic(auto)]

mod answer_text;
mod bad_line;
mod clash_text;
mod commands;
mod fields;
mod head;
mod kinds;
mod line_reader;
pub mod put;
mod refusal_text;
mod words;

pub use bad_line::BadLine;
pub use clash_text::put_clash;
pub use head::write_head;
pub use line_reader::read_line;
