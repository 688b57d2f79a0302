//! What a standby talks to.
ghost use Rattle.std.specs.Prelude.{◌≡◌, Bool, List, [], ◌∷◌, ◌++◌, Option, Some, IfOk, OnOk, Err};
ghost use Rattle.standby.specs.Ending.{Came, is_cut_after};
ghost use Rattle.standby.specs.Link.{Offer};
ghost use Rattle.standby.specs.Sent.{Sent, offers_in, IsOfChange};

use command_types::Entry;
use house::House;
use outside::{Disk, Failed};

/// A line that a standby says.
#[derive(Clone, Copy)]
pub enum Said {
    /// The first line, which no call of this crate says.
    Hello,
    /// It asks for the entry behind this position.
    Next { position: u64 },
    /// The last line.
    Bye,
}

/// A reply to a NEXT, or why there is none.
#[derive(Drop)]
pub enum Heard {
    /// The entry at a position; the reply was due at this offset of the input.
    Entry {
        due: u64,
        position: u64,
        entry: Entry,
    },
    /// There is no entry behind the position.
    Nothing,
    /// The peer refused, with this number.
    Refused {
        number: u8,
    },
    /// From this offset of the input on there is no reply that may stand there.
    Broken {
        at: u64,
    },
    /// There was no memory for the reply.
    Memory,
}

/// Why a line was not said whole.
#[derive(Clone, Copy, Debug, PartialEq, Eq)]
pub enum SayFault {
    /// The way out failed. A part of the line may have gone out.
    Failed,
    /// There was no memory, and nothing was said.
    Memory,
}

/// The other end of a link, over a way in and a way out, which its calls are lent. With each line it is shown the standby's house as
/// it is at that moment.
pub trait Peer<D: Disk, S, K> {
    // What was said, each with the house as it was then.
    ghost said: { Self → List Sent };

    // The entries that were heard.
    ghost heard: { Self → List Offer };

    // What the last NEXT came to.
    ghost last: { Self → Option Came };

    // Whether a line was said in part.
    ghost cut: { Self → Bool };

    // What the link was when following began, as each link sees that. It stays.
    ghost Start: { Type 0 };

    ghost start: { Self → Start };

    // What holds of it and of the two ways, as they are at one moment.
    ghost Holds: { Self → S → K → Type 0 };

    /// Says a line, and is shown the house as it is. What was said in part counts as said; where there is no memory, nothing was.
    fn say(&mut self, sink: &mut K, house: &House<D>, line: Said) -> Result<(), SayFault>
        ensures says { OnOk result (said self.new ≡ said self.old ++ record { house = house.now; line = line } ∷ []) }
        ensures says_in_part { result ≡ Err SayFault.Failed → said self.new ≡ said self.old ++ record { house = house.now; line = line } ∷ [] }
        ensures unsaid { result ≡ Err SayFault.Memory → said self.new ≡ said self.old }
        ensures hears { heard self.new ≡ heard self.old }
        ensures cuts { cut self.new ≡ is_cut_after (cut self.old) result }
        ensures stays { (last self.new ≡ last self.old) × (start self.new ≡ start self.old) }
        ensures holds { (source : S) → Holds self.old source sink.old → Holds self.new source sink.new };

    /// Waits for the reply to a NEXT of this position. An entry that it gives is a change. The only error is that the way in failed.
    fn hear(&mut self, source: &mut S, position: u64) -> Result<Heard, Failed>
        ensures change { IfOk result IsOfChange }
        ensures says { said self.new ≡ said self.old }
        ensures hears { heard self.new ≡ heard self.old ++ offers_in result }
        ensures came { last self.new ≡ Some (record { position = position; heard = result }) }
        ensures stays { (cut self.new ≡ cut self.old) × (start self.new ≡ start self.old) }
        ensures holds { (sink : K) → Holds self.old source.old sink → Holds self.new source.new sink };
}
