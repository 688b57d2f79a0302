//! The limits of a product, pair by pair, as the operator is told them.

ghost use Rattle.std.specs.Prelude.{◌≡◌, ◌≤◌, ◌<◌, ◌++◌, IfOk, OnOk, option_copied, slice_get};
ghost use Rattle.std.specs.Option.{option_to_list};
ghost use Rattle.command_types.specs.Books.{listed_below, listed_pairs};
ghost use Rattle.command_types.specs.Cycles.{limit_line, lines_of_problem};

use command_types::LimitLine;
use network_laws::Problem;
use std::alloc::{AllocError, Global};
use units_core::ProductNo;

// What is told of a pair: none where it has no amount and may come to nothing but 0.
fn line_of(problem: &Problem, seller: u16, buyer: u16) -> Option<LimitLine>
    ensures { option_to_list result ≡ limit_line problem.now seller buyer }
{
    let now = problem.network().amount(seller, buyer);
    let bounds = problem.limits().bounds(seller, buyer);
    if now == 0 && bounds.upper == Some(0) {
        return None;
    }
    Some(LimitLine {
        seller,
        buyer,
        lower: bounds.lower,
        now,
        upper: bounds.upper,
    })
}

// Adds the lines of what a seller owes or may owe.
fn add_seller(
    lines: &mut Vec<LimitLine>,
    problem: &Problem,
    seller: u16,
    members: u16,
) -> Result<(), AllocError>
    ensures { OnOk result (lines.new.items ≡ lines.old.items ++ listed_below members (limit_line problem.now seller)) }
{
    for buyer in 0..members {
        if let Some(line) = line_of(problem, seller, buyer) {
            lines.push(line)?;
        }
    }
    Ok(())
}

// The lines of all pairs of a product, in their order; no problem has none.
fn lines_of_problem(alloc: Global, problem: Option<&Problem>) -> Result<Vec<LimitLine>, AllocError>
    ensures { IfOk result (λ lines. lines.items ≡ lines_of_problem (option_copied problem.entry)) }
{
    let mut lines = Vec::new(alloc);
    let Some(problem) = problem else {
        return Ok(lines);
    };
    let members = problem.network().members();
    for seller in 0..members {
        add_seller(&mut lines, problem, seller, members)?;
    }
    Ok(lines)
}

/// The lines of a product among problems, one for each. The only error is want of memory.
pub(super) fn limit_lines(
    alloc: Global,
    problems: &[Problem],
    product: ProductNo,
) -> Result<Vec<LimitLine>, AllocError>
    ensures { IfOk result (λ lines. lines.items ≡ lines_of_problem (slice_get problems.now product)) }
{
    lines_of_problem(alloc, problems.get(product.index()))
}
