//! Calls under passes.

ghost use Rattle.std.specs.Prelude.{◌≡◌};
ghost use Rattle.cycle_lock.specs.Passes.{IsPassOf};

use crate::machine::answers::{Told, is_told};
use crate::market::named;
use command_types::{Ask, Moment, What};
use cycle_lock::{Pass, Turns};
use cycle_states::PlainDesk;
use std::sync::Wait;
use units_core::{Amount, Day};

/// What is asked under a pass.
#[derive(Clone, Copy)]
pub enum Call {
    /// The trade of this number.
    Trade(u64),
    /// A line that can't be read from this offset on.
    Unreadable(u32),
}

/// Which pass asks.
#[derive(Clone, Copy)]
pub enum Whose {
    First,
    Other,
}

/// Which pass asks, what it asks, the position of the reply, and the answer.
pub type Turn = (Whose, Call, u64, Told);

/// A trade of 10,000 and the number, asked for by its seller.
pub fn trade(number: u64) -> Option<Ask> {
    let amount = Amount::new(number.checked_add(10_000)?)?;
    Some(Ask {
        by: Some(named(b"A")),
        what: What::Trade {
            seller: named(b"A"),
            buyer: named(b"B"),
            product: named(b"P"),
            amount,
            day: Day::new(2026, 3, 2)?,
        },
        moment: Moment::new(0),
    })
}

fn ask_of(call: Call) -> Option<Ask> {
    match call {
        Call::Trade(number) => trade(number),
        Call::Unreadable(at) => Some(Ask {
            by: None,
            what: What::Unreadable { at },
            moment: Moment::new(0),
        }),
    }
}

fn is_answered<R: Wait>(rt: &R, turns: &Turns<PlainDesk>, pass: &mut Pass, turn: Turn) -> bool
    requires { IsPassOf turns.now pass.old }
    ensures { IsPassOf turns.now pass.new }
{
    let (_, call, at, told) = turn;
    let Some(ask) = ask_of(call) else {
        return false;
    };
    let reply = turns.call(rt, pass, ask);
    reply.at == at && is_told(&reply.answer, told)
}

/// Whether each call is answered so at this position, one after the other.
pub fn go<R: Wait>(
    rt: &R,
    turns: &Turns<PlainDesk>,
    pass: &mut Pass,
    other: &mut Pass,
    rows: &[Turn],
) -> bool
    requires pass { IsPassOf turns.now pass.old }
    requires other { IsPassOf turns.now other.old }
    ensures pass { IsPassOf turns.now pass.new }
    ensures other { IsPassOf turns.now other.new }
{
    for row in rows {
        let is_so = match row.0 {
            Whose::First => is_answered(rt, turns, pass, *row),
            Whose::Other => is_answered(rt, turns, other, *row),
        };
        if !is_so {
            return false;
        }
    }
    true
}
