//! What the machine, the lock and the sessions speak of: rosters, trades, commands and answers as data, and
//! the definitions of the one-command-at-a-time machine, of its history, of replies, lines and sessions.
#![tactic(auto)]

mod answer;
mod ask;
mod base;
mod cycle;
mod desk;
mod figures;
mod file_fault;
mod laws;
mod level;
mod line;
mod listed;
mod moment;
mod name_index;
mod plan;
mod proof;
mod refusal;
mod roster;
mod row_places;
mod spelling;
mod tolerance;
mod trade;

pub use answer::{Answer, Reply};
pub use ask::{Ask, Entry, What};
pub use base::Base;
pub use cycle::{Mode, Phase};
pub use desk::{Desk, MOST_TOGETHER};
pub use figures::{Cycle, Figures, JournalFigures, Start, State};
pub use file_fault::FileFault;
pub use laws::{cut_lines_join, told_cases_exclude};
pub use level::Level;
pub use line::Line;
pub use listed::Listed;
pub use moment::{MOST_MOMENT, Moment};
pub use network_laws::Clash;
pub use plan::{LimitLine, PlanRow};
pub use proof::{PairLine, ProofHead, ProofRow, Whose};
pub use refusal::{BadPost, Refusal};
pub use roster::{MemberRow, OperatorRow, ProductRow, Role, Roster};
pub use spelling::Spelling;
pub use tolerance::ToleranceRow;
pub use trade::{Side, TradeRow, TradeState};
