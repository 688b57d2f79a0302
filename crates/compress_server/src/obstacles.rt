//! The line that tells on the errors what keeps a market from going on over a new roster.

ghost use Rattle.std.specs.Prelude.{◌≡◌, ◌++◌, IfOk, OnOk};
ghost use Rattle.compress_server.specs.Faults.{cause_text, obstacle_line, obstacle_text, trade_text};

use crate::ending::Obstacle;
use period_roll::Cause;
use std::alloc::{AllocError, Global};
use units_core::print_u128;

// Puts a trade's number between two texts behind the line. The only error is want of memory, as below.
fn put_trade(line: &mut Vec<u8>, before: &[u8], trade: u64, behind: &[u8]) -> Result<(), AllocError>
    ensures { OnOk result (line.new.items ≡ line.old.items ++ trade_text before.now trade behind.now) }
{
    line.extend_from_slice(before)?;
    print_u128(u128::from(trade), line)?;
    line.extend_from_slice(behind)
}

fn put_cause(line: &mut Vec<u8>, cause: Cause) -> Result<(), AllocError>
    ensures { OnOk result (line.new.items ≡ line.old.items ++ cause_text cause) }
{
    match cause {
        Cause::CycleOpen => line.extend_from_slice(b"a cycle is open"),
        Cause::MemberGone { trade } => put_trade(line, b"a member of trade ", trade, b" is gone"),
        Cause::RoleChanged { trade } => {
            put_trade(line, b"a member of trade ", trade, b" has another role")
        }
        Cause::ProductGone { trade } => put_trade(
            line,
            b"the product of trade ",
            trade,
            b" is gone",
        ),
        Cause::MaturesEarly { trade } => {
            put_trade(line, b"the product of trade ", trade, b" matures too early")
        }
        Cause::PositionsFull => line.extend_from_slice(b"no position is left"),
    }
}

fn put_obstacle(line: &mut Vec<u8>, obstacle: Obstacle) -> Result<(), AllocError>
    ensures { OnOk result (line.new.items ≡ line.old.items ++ obstacle_text obstacle) }
{
    match obstacle {
        Obstacle::Market(cause) => put_cause(line, cause),
        Obstacle::Misfit => line.extend_from_slice(b"a number is above 10^18"),
        Obstacle::TooLong => line.extend_from_slice(b"the new journal would be too long"),
    }
}

/// The line of a roll that is refused. The only error is want of memory.
pub fn obstacle_line(alloc: Global, obstacle: Obstacle) -> Result<Vec<u8>, AllocError>
    ensures { IfOk result (λ line. line.items ≡ obstacle_line obstacle) }
{
    let mut line = b"cannot roll: ".to_vec(alloc)?;
    put_obstacle(&mut line, obstacle)?;
    line.push(b'\n')?;
    Ok(line)
}
