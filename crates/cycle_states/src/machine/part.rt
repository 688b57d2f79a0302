//! A product of a proposal, with all that a member's bounds in it come from.

ghost use Rattle.std.specs.Prelude.{◌≡◌};
ghost use Rattle.network_laws.specs.Networks.{IsCursor, IsRising, at};
ghost use Rattle.network_laws.specs.Limits.{IsLimitCursor, IsRisingLimits, lower, upper};
ghost use Rattle.cycle_states.specs.PairPlaces.{pair_place};

use command_types::{MemberRow, Mode};
use network_laws::{Bounds, LimitRow, Problem, Row, Solution, amount_at, bounds_at};
use product_book::Book;
use tolerance_sets::Tolerances;
use units_core::ProductNo;

/// A product of a proposal.
#[derive(Clone, Copy)]
pub(super) struct Part<'a> {
    pub product: ProductNo,
    pub mode: Mode,
    pub members: &'a [MemberRow],
    pub tolerances: &'a Tolerances,
    pub book: &'a Book,
    pub problem: &'a Problem,
    pub solution: &'a Solution,
}

/// The rows of its limits.
pub(super) fn limit_rows<'a>(part: &Part<'a>) -> &'a [LimitRow]
    ensures rows { result.now ≡ part.now.problem.now.limits.rows }
    ensures rising { IsRisingLimits result.now }
{
    part.problem.limits().rows()
}

/// The rows of its network.
pub(super) fn rows_now<'a>(part: &Part<'a>) -> &'a [Row]
    ensures rows { result.now ≡ part.now.problem.now.network.rows }
    ensures rising { IsRising result.now }
{
    part.problem.network().rows()
}

/// The rows of what the proposal makes of it.
pub(super) fn rows_next<'a>(part: &Part<'a>) -> &'a [Row]
    ensures rows { result.now ≡ part.now.solution.now.network.rows }
    ensures rising { IsRising result.now }
{
    part.solution.network().rows()
}

/// The bounds of the pair whose limits' cursor this is.
pub(super) fn bounds_of(part: &Part, cursor: usize, seller: u16, buyer: u16) -> Bounds
    requires { IsLimitCursor part.now.problem.now.limits.rows cursor (pair_place seller buyer) }
    ensures lower { result.lower ≡ lower part.now.problem.now.limits seller buyer }
    ensures upper { result.upper ≡ upper part.now.problem.now.limits seller buyer }
{
    bounds_at(limit_rows(part), cursor, seller, buyer)
}

/// The frozen amount of the pair whose cursor this is.
pub(super) fn amount_now(part: &Part, cursor: usize, seller: u16, buyer: u16) -> u64
    requires { IsCursor part.now.problem.now.network.rows cursor (pair_place seller buyer) }
    ensures { result ≡ at part.now.problem.now.network seller buyer }
{
    amount_at(rows_now(part), cursor, seller, buyer)
}

/// What the proposal makes of it.
pub(super) fn amount_next(part: &Part, cursor: usize, seller: u16, buyer: u16) -> u64
    requires { IsCursor part.now.solution.now.network.rows cursor (pair_place seller buyer) }
    ensures { result ≡ at part.now.solution.now.network seller buyer }
{
    amount_at(rows_next(part), cursor, seller, buyer)
}
