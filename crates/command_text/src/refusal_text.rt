//! The texts of refusals: a number, a name and, where there is one, a value.

ghost use Rattle.std.specs.Prelude.{◌≡◌, ◌+◌, ◌≤◌, ◌++◌, length, take};
ghost use Rattle.command_types.specs.Text.{phase_text, post_text, refusal_text};
ghost use Rattle.command_text.specs.declared.put.TheConstants.{PAIR};
ghost use Rattle.units_core.specs.declared.limits.TheConstants.{MOST_NAME};

use crate::clash_text::put_clash;
use crate::put::{put, put_product, put_state, put_told};
use command_types::{BadPost, Phase, Refusal, Roster};

// The word of a cycle's phase.
fn put_phase(into: &mut [u8], at: usize, phase: Phase) -> usize
    requires { at + 8 ≤ length into.old }
    ensures end { result ≤ at + 8 }
    ensures text { take result into.new ≡ take at into.old ++ phase_text phase }
{
    match phase {
        Phase::None => put(into, at, b"none"),
        Phase::Frozen => put(into, at, b"frozen"),
        Phase::Solving => put(into, at, b"solving"),
        Phase::Proposed => put(into, at, b"proposed"),
        Phase::Broken => put(into, at, b"broken"),
    }
}

// What is wrong with a posted list.
fn put_post(into: &mut [u8], at: usize, roster: &Roster, post: BadPost) -> usize
    requires { at + (MOST_NAME + PAIR + 10) ≤ length into.old }
    ensures end { result ≤ at + (MOST_NAME + PAIR + 10) }
    ensures text { take result into.new ≡ take at into.old ++ post_text roster.now post }
{
    match post {
        BadPost::Shape => put(into, at, b"shape"),
        BadPost::At { product, clash } => {
            let end = put_product(into, at, roster, product.0);
            let end = put(into, end, b" ");
            put_clash(into, end, roster, clash)
        }
    }
}

/// A refusal's number, name and value.
pub(crate) fn put_refusal(into: &mut [u8], at: usize, roster: &Roster, refusal: Refusal) -> usize
    requires { at + (MOST_NAME + PAIR + 50) ≤ length into.old }
    ensures end { result ≤ at + (MOST_NAME + PAIR + 50) }
    ensures text { take result into.new ≡ take at into.old ++ refusal_text roster.now refusal }
{
    match refusal {
        Refusal::BadLine { at: byte } => put_told(into, at, b"3 bad-line ", u64::from(byte)),
        Refusal::NotGreeted => put(into, at, b"1 not-greeted"),
        Refusal::BadKey => put(into, at, b"2 bad-key"),
        Refusal::NotOperator => put(into, at, b"14 not-operator"),
        Refusal::UnknownMember => put(into, at, b"4 unknown-member"),
        Refusal::UnknownProduct => put(into, at, b"5 unknown-product"),
        Refusal::OwnTrade => put(into, at, b"6 own-trade"),
        Refusal::UnknownTrade => put(into, at, b"11 unknown-trade"),
        Refusal::NotParty => put(into, at, b"7 not-party"),
        Refusal::AmountOver => put(into, at, b"8 amount-over"),
        Refusal::Matured { maturity } => {
            let end = put(into, at, b"22 matured ");
            put(into, end, &maturity.text())
        }
        Refusal::FloorOverCeiling => put(into, at, b"23 floor-over-ceiling"),
        Refusal::WrongTradeState { state } => {
            let end = put(into, at, b"12 wrong-trade-state ");
            put_state(into, end, state)
        }
        Refusal::TradeFrozen { cycle } => put_told(into, at, b"13 trade-frozen ", cycle),
        Refusal::CycleOpen { cycle } => put_told(into, at, b"15 cycle-open ", cycle),
        Refusal::WrongCycle { cycle } => put_told(into, at, b"16 wrong-cycle ", cycle),
        Refusal::CycleBroken { trade } => put_told(into, at, b"21 cycle-broken ", trade),
        Refusal::WrongPhase { phase } => {
            let end = put(into, at, b"17 wrong-phase ");
            put_phase(into, end, phase)
        }
        Refusal::WrongVersion { version } => put_told(into, at, b"18 wrong-version ", version),
        Refusal::NotTouched => put(into, at, b"19 not-touched"),
        Refusal::AlreadyAccepted => put(into, at, b"20 already-accepted"),
        Refusal::BadCertificate { post } => {
            let end = put(into, at, b"24 bad-certificate ");
            put_post(into, end, roster, post)
        }
        Refusal::GrossOver => put(into, at, b"9 gross-over"),
        Refusal::TradesFull => put(into, at, b"10 trades-full"),
        Refusal::DraftFull => put(into, at, b"29 draft-full"),
        Refusal::Gone { from } => put_told(into, at, b"31 gone ", from),
        Refusal::Ahead { end } => put_told(into, at, b"32 ahead ", end),
        Refusal::JournalFull { size } => put_told(into, at, b"25 journal-full ", size),
        Refusal::Stopped { at: position } => put_told(into, at, b"26 stopped ", position),
        Refusal::Memory => put(into, at, b"28 memory"),
        Refusal::DiskFault => put(into, at, b"27 disk-fault"),
    }
}
