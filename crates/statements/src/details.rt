//! The rows of an answer.

ghost use Rattle.std.specs.Prelude.{◌≡◌, ◌<◌, slice_get, length, Some};
ghost use Rattle.statements.specs.Details.{details_of};

use command_types::{Answer, LimitLine, Moment, PlanRow, ProofRow, TradeRow};
use units_core::MemberNo;

/// An execution: the length of the history then, its cycle and version, and how many trades its plan ended, cut and made.
#[derive(Clone, Copy)]
pub struct ExecutionLine {
    pub position: u64,
    pub cycle: u64,
    pub version: u64,
    pub ended: u64,
    pub cut: u64,
    pub made: u64,
}

/// What a detail line tells, or a line of a replay.
#[derive(Clone, Copy)]
pub enum DetailRow {
    Trade(TradeRow),
    /// The limits of a pair.
    Limit(LimitLine),
    /// A step of a plan.
    Plan(PlanRow),
    /// What a member tests its own part of a proposal by.
    Proof(ProofRow),
    /// A member, and how many trades it has a side in.
    Member { member: MemberNo, count: u64 },
    Execution(ExecutionLine),
    /// When the execution in front of it was asked.
    Asked(Moment),
}

/// How many rows an answer tells. Most answers tell none.
pub fn detail_count(answer: &Answer) -> usize
    ensures { result ≡ length (details_of answer.now) }
{
    match answer {
        Answer::Statement { rows } => rows.rows().len(),
        Answer::LimitRows { rows } => rows.rows().len(),
        Answer::PlanRows { rows, .. } => rows.rows().len(),
        Answer::ProofRows { rows, .. } => rows.rows().len(),
        _ => 0,
    }
}

/// The row at an index of those that an answer tells.
pub fn detail_row(answer: &Answer, index: usize) -> DetailRow
    requires { index < length (details_of answer.now) }
    ensures { slice_get (details_of answer.now) index ≡ Some result }
{
    match answer {
        Answer::Statement { rows } => DetailRow::Trade(rows.rows()[index]),
        Answer::LimitRows { rows } => DetailRow::Limit(rows.rows()[index]),
        Answer::PlanRows { rows, .. } => DetailRow::Plan(rows.rows()[index]),
        Answer::ProofRows { rows, .. } => DetailRow::Proof(rows.rows()[index]),
        _ => unreachable!(),
    }
}
