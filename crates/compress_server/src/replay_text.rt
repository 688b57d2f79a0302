//! What a replay tells: members with their rows, executions, `end N`.

ghost use Rattle.std.specs.Prelude.{◌≡◌, ◌<◌, ◌++◌, length, OnOk, IfOk};
ghost use Rattle.command_types.specs.Books.{listed_below};
ghost use Rattle.command_types.specs.CycleSteps.{rows_of_member};
ghost use Rattle.command_types.specs.Details.{lines_text, trade_line};
ghost use Rattle.cycle_states.specs.Machine.{IsYoung};
ghost use Rattle.cycle_states.specs.Replayed.{IsReplayed};
ghost use Rattle.statements.specs.Details.{row_text};
ghost use Rattle.compress_server.specs.Told.{rows_told, reply_told, end_text, recovered_text};

use command_types::{Answer, Ask, Listed, Moment, Roster, TradeRow, What};
use cycle_states::Machine;
use house::{Dated, Recovered};
use statements::{DetailRow, ExecutionLine, MOST_ROW, put_row};
use std::alloc::{AllocError, Global};
use units_core::{MemberNo, print_u128};

// Puts the line of a row behind the text. The only error is want of memory, as below.
fn push_row(text: &mut Vec<u8>, roster: &Roster, row: &DetailRow) -> Result<(), AllocError>
    ensures { OnOk result (text.new.items ≡ text.old.items ++ row_text roster.now row.now) }
{
    let mut line = [0; MOST_ROW];
    let size = put_row(&mut line, 0, roster, row);
    text.extend_from_slice(&line[..size])
}

fn push_trades(text: &mut Vec<u8>, roster: &Roster, rows: &[TradeRow]) -> Result<(), AllocError>
    ensures { OnOk result (text.new.items ≡ text.old.items ++ lines_text (trade_line roster.now) rows.now) }
{
    for row in rows {
        push_row(text, roster, &DetailRow::Trade(*row))?;
    }
    Ok(())
}

// The trades in which a member has a side: what its STATEMENT is answered.
fn trades_of(machine: &Machine, member: u16) -> Result<Listed<TradeRow>, AllocError>
    requires young { IsYoung machine.now.state.cycle }
    requires there { member < length machine.now.state.roster.members }
    ensures { IfOk result (λ rows. rows ≡ rows_of_member member machine.now.state.trades) }
{
    let row = machine.roster().members()[usize::from(member)];
    let ask = Ask {
        by: Some(row.name),
        what: What::Statement,
        moment: Moment::new(0),
    };
    match machine.answer(&ask)? {
        Answer::Statement { rows } => Ok(rows),
        _ => unreachable!(),
    }
}

// Puts a member and its trades behind the text.
fn push_member(text: &mut Vec<u8>, machine: &Machine, member: u16) -> Result<(), AllocError>
    requires young { IsYoung machine.now.state.cycle }
    requires there { member < length machine.now.state.roster.members }
    ensures { OnOk result (text.new.items ≡ text.old.items ++ rows_told machine.now.state member) }
{
    let roster = machine.roster();
    let trades = trades_of(machine, member)?;
    let rows = trades.rows();
    let head = DetailRow::Member {
        member: MemberNo(member),
        count: rows.len() as u64,
    };
    push_row(text, roster, &head)?;
    push_trades(text, roster, rows)
}

fn push_members(text: &mut Vec<u8>, machine: &Machine) -> Result<(), AllocError>
    requires { IsYoung machine.now.state.cycle }
    ensures { OnOk result (text.new.items ≡ text.old.items ++ listed_below (length machine.now.state.roster.members) (rows_told machine.now.state)) }
{
    let count = machine.roster().members().len() as u16;
    for member in 0..count {
        push_member(text, machine, member)?;
    }
    Ok(())
}

// Puts the line of a reply and that of its moment behind the text, if it tells an execution. One that touched nobody changed no
// trade.
fn push_reply(text: &mut Vec<u8>, roster: &Roster, dated: &Dated) -> Result<(), AllocError>
    ensures { OnOk result (text.new.items ≡ text.old.items ++ reply_told dated.now) }
{
    let (cycle, version, ended, cut, made) = match dated.reply.answer {
        Answer::Executed {
            cycle,
            version,
            ended,
            cut,
            made,
        } => (cycle, version, ended, cut, made),
        Answer::Nothing { cycle, version } => (cycle, version, 0, 0, 0),
        _ => return Ok(()),
    };
    let line = ExecutionLine {
        position: dated.reply.at,
        cycle,
        version,
        ended,
        cut,
        made,
    };
    push_row(text, roster, &DetailRow::Execution(line))?;
    push_row(text, roster, &DetailRow::Asked(dated.moment))
}

fn push_replies(text: &mut Vec<u8>, roster: &Roster, replies: &[Dated]) -> Result<(), AllocError>
    ensures { OnOk result (text.new.items ≡ text.old.items ++ lines_text reply_told replies.now) }
{
    for reply in replies {
        push_reply(text, roster, reply)?;
    }
    Ok(())
}

fn push_end(text: &mut Vec<u8>, entries: u64) -> Result<(), AllocError>
    ensures { OnOk result (text.new.items ≡ text.old.items ++ end_text entries) }
{
    text.extend_from_slice(b"end ")?;
    print_u128(u128::from(entries), text)?;
    text.extend_from_slice(b"\n")
}

/// All that is told of what was read of a disk. The only error is want of memory.
pub fn text_of(alloc: Global, read: &Recovered) -> Result<Vec<u8>, AllocError>
    requires { IsReplayed read.now.machine.state read.now.past }
    ensures { IfOk result (λ text. text.items ≡ recovered_text read.now) }
{
    let length = read.past.length();
    let mut text = Vec::new(alloc);
    push_members(&mut text, &read.machine)?;
    if let Some(replies) = &read.executions.replies {
        push_replies(&mut text, read.machine.roster(), replies)?;
    }
    push_end(&mut text, length)?;
    Ok(text)
}
