//! What a desk answers from its history, where the machine's answer leaves it open: the entry behind a position, and the
//! position at which a version began.

ghost use Rattle.std.specs.Prelude.{◌≡◌};
ghost use Rattle.command_types.specs.Offers.{is_begin};
ghost use Rattle.cycle_states.specs.Offers.{filled_at, offered_at, open_ask};

use command_types::{Answer, ProofHead, Refusal, What};

/// What a command asks of the history itself.
#[derive(Clone, Copy)]
pub enum OpenAsk {
    /// The entry behind this position.
    Next { position: u64 },
    /// Where the last version began.
    Proof,
    /// Nothing.
    Other,
}

/// Three positions of a history.
#[derive(Clone, Copy)]
pub struct Places {
    /// Where it begins.
    pub base: u64,
    /// Where it ends.
    pub end: u64,
    /// That of the last change that begins a version.
    pub begun: u64,
}

/// What a command asks of the history itself.
pub fn open_ask(what: &What) -> OpenAsk
    ensures { result ≡ open_ask what.now }
{
    match what {
        What::Next { position } => OpenAsk::Next {
            position: *position,
        },
        What::Proof { .. } => OpenAsk::Proof,
        _ => OpenAsk::Other,
    }
}

/// Whether the command begins a version.
pub fn is_begin(what: &What) -> bool
    ensures { result ≡ is_begin what.now }
{
    matches!(what, What::Begin { .. })
}

// What a NEXT is answered that the machine does not refuse; none where that is an entry, which is not kept here.
fn offered(position: u64, places: Places) -> Option<Answer>
    ensures { result ≡ offered_at position places }
{
    if position < places.base {
        return Some(Answer::No(Refusal::Gone { from: places.base }));
    }
    if places.end < position {
        return Some(Answer::No(Refusal::Ahead { end: places.end }));
    }
    if position < places.end {
        return None;
    }
    Some(Answer::NoNext)
}

/// The machine's answer, with what the history's places tell; none where it asks for an entry, which they do not tell.
pub fn filled(answer: Answer, asked: OpenAsk, places: Places) -> Option<Answer>
    ensures { result ≡ filled_at places asked answer }
{
    match asked {
        OpenAsk::Next { position } => match answer {
            Answer::NoNext => offered(position, places),
            answer => Some(answer),
        },
        OpenAsk::Proof => match answer {
            Answer::ProofRows { head, rows } => Some(Answer::ProofRows {
                head: ProofHead {
                    begun: places.begun,
                    ..head
                },
                rows,
            }),
            answer => Some(answer),
        },
        OpenAsk::Other => Some(answer),
    }
}
