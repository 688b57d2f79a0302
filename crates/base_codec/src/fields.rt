//! Fields of bases alone, each read from the front of the bytes that are left.
ghost use Rattle.std.specs.Prelude.{◌≡◌};
ghost use Rattle.record_codec.specs.Laws.{Reads};
ghost use Rattle.base_codec.specs.Reading.{short_at, state_at, party_at, holds_at};

use command_types::{Side, TradeState};
use record_codec::ReadFault;
use record_codec::fields::Unread;

#[tactic(auto, unfolding(record_codec::specs::Reading::field))]
pub(crate) fn read_short(unread: &mut Unread) -> Result<u16, ReadFault>
    ensures { Reads (λ n. (n, unread.new.rest.now)) result (short_at unread.old.rest.now) }
{
    let Some((text, rest)) = unread.rest.split_first_chunk() else {
        return Err(unread.bad());
    };
    unread.rest = rest;
    Ok(u16::from_le_bytes(*text))
}

#[tactic(auto, unfolding(record_codec::specs::Reading::field))]
pub(crate) fn read_state(unread: &mut Unread) -> Result<TradeState, ReadFault>
    ensures { Reads (λ s. (s, unread.new.rest.now)) result (state_at unread.old.rest.now) }
{
    let (state, rest) = match unread.rest {
        [0, rest @ ..] => (TradeState::Alleged, rest),
        [1, rest @ ..] => (TradeState::Live, rest),
        [2, rest @ ..] => (TradeState::Ended, rest),
        _ => return Err(unread.bad()),
    };
    unread.rest = rest;
    Ok(state)
}

// A submitter or a mark.
#[tactic(auto, unfolding(record_codec::specs::Reading::field))]
pub(crate) fn read_party(unread: &mut Unread) -> Result<Option<Side>, ReadFault>
    ensures { Reads (λ p. (p, unread.new.rest.now)) result (party_at unread.old.rest.now) }
{
    let (party, rest) = match unread.rest {
        [0, rest @ ..] => (None, rest),
        [1, rest @ ..] => (Some(Side::Out), rest),
        [2, rest @ ..] => (Some(Side::In), rest),
        _ => return Err(unread.bad()),
    };
    unread.rest = rest;
    Ok(party)
}

// Whether the seller holds, and whether the buyer does.
#[tactic(auto, unfolding(record_codec::specs::Reading::field))]
pub(crate) fn read_holds(unread: &mut Unread) -> Result<(bool, bool), ReadFault>
    ensures { Reads (λ h. (h, unread.new.rest.now)) result (holds_at unread.old.rest.now) }
{
    let (holds, rest) = match unread.rest {
        [0, rest @ ..] => ((false, false), rest),
        [1, rest @ ..] => ((true, false), rest),
        [2, rest @ ..] => ((false, true), rest),
        [3, rest @ ..] => ((true, true), rest),
        _ => return Err(unread.bad()),
    };
    unread.rest = rest;
    Ok(holds)
}
