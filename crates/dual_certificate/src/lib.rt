//! The certificate of a network of least gross: whether potentials certify it, also for one member by its own rows alone,
//! and the dual bound; the text of a proposal, which has such networks with their potentials; and that of a summary, which
//! has their figures.
//!
//! The test and the bound go by the duality of minimum-cost flow (Ahuja, Magnanti and Orlin, *Network Flows*), and
//! take no memory. The test walks the rows of limits and network in step: its time is linear in the number of rows. The
//! bound's is linear in the square of the number of members.
#![tactic(auto)]

mod bounds_test;
mod checker;
mod clean_test;
mod cost;
mod dual;
mod laws;
mod net_test;
mod own_checker;
mod own_laws;
mod pair_cursor;
mod pieces;
mod price_test;
mod proposal_draft;
mod proposal_line;
mod proposal_part;
mod proposal_reader;
mod proposal_run;
mod proposal_writer;
mod run_joiner;
mod summary_writer;

pub use checker::check;
pub use dual::bound;
pub use laws::{what_is_read_is_its_text, what_is_written_reads_back};
pub use own_checker::check_own;
pub use own_laws::{
    certified_where_all_but_one_are, certified_where_all_members_are, gross_is_what_all_sell,
    least_beside_the_silent, least_where_all_but_one_say, near_potentials_are_enough,
    no_own_clash_is_certified, own_rows_are_enough,
};
pub use proposal_part::ProposalPart;
pub use proposal_reader::{read_proposal, read_runs};
pub use proposal_run::{ProposalRun, read_run};
pub use proposal_writer::{join_parts, write_part};
pub use run_joiner::{RunText, run_texts};
pub use summary_writer::write_summary;
