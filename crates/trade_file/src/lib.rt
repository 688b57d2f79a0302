//! How roster and trade files are read: who takes part, in which products, which trades are live, and the first fault
//! of a file that doesn't say it. And the market of a number, which needs no files.
#![tactic(auto)]

mod draft;
mod draws;
mod file_trade;
mod found_names;
mod generated;
mod laws;
mod names;
mod pieces;
mod piles;
mod plain_file;
mod plain_row;
mod plain_trades;
mod roster;
mod roster_row;
mod trade_draft;
mod trade_networks;
mod trade_row;
mod trades;

pub use file_trade::FileTrade;
pub use generated::generate;
pub use laws::roster_file_has_names;
pub use pieces::Readers;
pub use roster::read_roster;
pub use trade_networks::networks;
pub use trades::read_trades;
