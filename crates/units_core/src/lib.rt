//! Amounts, whole numbers, places, names and days: how each is read from its text, and how it is written; and the
//! limits of the service.
#![tactic(auto)]

mod amount;
mod day;
mod limits;
mod name;
mod number;
mod place;
mod print;
mod signed;

pub use amount::Amount;
pub use day::Day;
pub use limits::{
    MOST_CONNECTIONS, MOST_DEALERS, MOST_DRAFT, MOST_FILE, MOST_FILE_TRADES, MOST_GROSS,
    MOST_INPUT, MOST_JOURNAL, MOST_LINE, MOST_MEMBERS, MOST_NAME, MOST_NUMBER, MOST_POTENTIAL,
    MOST_PRODUCTS, MOST_SEATS, MOST_SUBMITTED, MOST_TRADE_AMOUNT, MOST_WORKERS,
};
pub use name::Name;
pub use number::{NumberFault, read_number};
pub use place::{MemberNo, ProductNo};
pub use print::{print_i128, print_u128};
pub use signed::read_signed;
