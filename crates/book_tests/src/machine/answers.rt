//! Answers, in short.

use command_types::{Answer, Refusal, TradeRow};
use net_positions::gross;
use network_laws::Problem;

/// An answer.
#[derive(Clone, Copy)]
pub enum Told {
    Traded(u64),
    Affirmed(u64),
    Marked(u64),
    Ended(u64),
    Tolerance,
    /// What is owed, what one is owed, and the difference.
    Own(u64, u64, i64),
    /// Gross, the sum of the positive nets, the excess, and what is left after netting pair by pair.
    Market(u64, u64, u64, u64),
    /// A statement of the trades of these two numbers.
    Trades(u64, u64),
    /// The cycle and its trades.
    Frozen(u64, u64),
    /// The cycle and the version.
    Begun(u64, u64),
    /// The gross of the one product's problem.
    Problem(u64),
    Noted(u32),
    Cancelled(u64),
    No(Refusal),
}

fn are_trades(rows: &[TradeRow], first: u64, second: u64) -> bool {
    rows.len() == 2 && rows[0].number == first && rows[1].number == second
}

fn is_problem(problems: &[Problem], sum: u64) -> bool {
    problems.len() == 1 && gross(problems[0].network()) == sum
}

// The answers about amounts, and those that list something.
fn is_sum(answer: &Answer, told: Told) -> bool {
    match (answer, told) {
        (Answer::Own { out, into, net }, Told::Own(owing, owed, rest)) => {
            *out == owing && *into == owed && *net == rest
        }
        (
            Answer::Market {
                gross,
                floor_m,
                excess,
                bilateral,
            },
            Told::Market(sum, nets, rest, pairs),
        ) => *gross == sum && *floor_m == nets && *excess == rest && *bilateral == pairs,
        (Answer::Statement { rows }, Told::Trades(first, second)) => {
            are_trades(rows.rows(), first, second)
        }
        (Answer::Problems(problems), Told::Problem(sum)) => is_problem(problems.rows(), sum),
        _ => false,
    }
}

// The answers about a cycle and a draft.
fn is_of_cycle(answer: &Answer, told: Told) -> bool {
    match (answer, told) {
        (Answer::Frozen { cycle, trades }, Told::Frozen(want, count)) => {
            *cycle == want && *trades == count
        }
        (Answer::Begun { cycle, version }, Told::Begun(want, number)) => {
            *cycle == want && *version == number
        }
        (Answer::Noted { size }, Told::Noted(want)) => *size == want,
        (Answer::Cancelled { cycle }, Told::Cancelled(want)) => *cycle == want,
        _ => is_sum(answer, told),
    }
}

/// Whether this is the answer that is told.
pub fn is_told(answer: &Answer, told: Told) -> bool {
    match (answer, told) {
        (Answer::No(refusal), Told::No(want)) => *refusal == want,
        (Answer::Traded { trade }, Told::Traded(want)) => *trade == want,
        (Answer::Affirmed { trade }, Told::Affirmed(want)) => *trade == want,
        (Answer::Marked { trade }, Told::Marked(want)) => *trade == want,
        (Answer::Ended { trade }, Told::Ended(want)) => *trade == want,
        (Answer::Tolerance, Told::Tolerance) => true,
        _ => is_of_cycle(answer, told),
    }
}
