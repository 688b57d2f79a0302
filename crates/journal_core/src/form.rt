//! The forms of a journal's file, as they are drawn here with the bytes of one that has just begun.
//!
//! ```text
//! plain        0  OTCJRNL1                   8 bytes
//!              8  gates and records          the last gate is closed: 00
//!
//! with slots   0  OTCJRNLC                   8 bytes
//!              8  selector                   1 byte: 01 selects slot 1, any other byte slot 0
//!              9  slot 0: a body's offset    8 bytes, the lowest first: 25
//!             17  slot 1: a body's offset    8 bytes
//!             25  a body                     it stands at the selected slot's offset
//!
//! a body          the length of a base       4 bytes, the lowest first
//!                 the base
//!                 gates and records          the last gate is closed: 00
//! ```
ghost use Rattle.std.specs.Prelude.{◌≡◌};
ghost use Rattle.journal_core.specs.Holds.{slot_place};

// How many bytes a header has. A selector, or the first gate, stands behind it.
pub(crate) const HEADER: usize = 8;

/// Where the first body stands, behind the slots.
pub const FIRST_BODY: u64 = 25;

/// How a journal's file begins.
#[derive(Clone, Copy, Debug, PartialEq, Eq)]
pub enum Form {
    /// It has fewer than ten bytes.
    Short,
    /// It has no base, and its records begin behind the header.
    Plain,
    /// It begins as a file with slots, and has fewer than 31 bytes.
    SlotsShort,
    /// It has slots: the one that is selected, 0 or 1, and the offset in it, at which the length of a base stands.
    Slots { selected: u8, offset: u64 },
}

impl Form {
    ghost use Rattle.journal_core.specs.Form.{begun_form, fold_place, other_slot};

    // The form of a journal that has begun.
    pub(crate) fn begun(self) -> Form
        ensures { result ≡ begun_form self }
    {
        match self {
            Form::Short | Form::SlotsShort => Form::Slots {
                selected: 0,
                offset: FIRST_BODY,
            },
            Form::Plain | Form::Slots { .. } => self,
        }
    }

    // Where a body of so many bytes goes in a journal that ends at this place.
    pub(crate) fn body_place(self, end: u64, size: u64) -> u64
        ensures { result ≡ fold_place self end size }
    {
        match self {
            Form::Slots { offset, .. } if offset >= FIRST_BODY && size <= offset - FIRST_BODY => {
                FIRST_BODY
            }
            _ => end,
        }
    }

    // The slot that is not selected.
    pub(crate) fn other_slot(self) -> u8
        ensures { result ≡ other_slot self }
    {
        match self {
            Form::Slots { selected: 1, .. } => 0,
            _ => 1,
        }
    }
}

// The place of a slot.
pub(crate) fn place_of(slot: u8) -> u64
    ensures { result ≡ slot_place slot }
{
    if slot == 1 { 17 } else { 9 }
}
