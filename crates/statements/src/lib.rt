//! Detail lines of replies, the rows that follow a head line; and the lines of a replay.
#![tactic(auto)]

mod details;
mod plan_text;
mod proof_text;
mod replay_text;
mod row_text;
mod trade_text;

pub use details::{DetailRow, ExecutionLine, detail_count, detail_row};
pub use row_text::{MOST_ROW, put_row, write_row};
