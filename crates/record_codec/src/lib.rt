//! Changes as the byte records of a journal, written and read. What is written has one spelling; a record without a moment, the
//! first spelling, is read too.
//!
//! A record is the moment in eight bytes, the seat in four, the party's name, one byte for the kind of change, and its fields.
//! Numbers are little-endian, a name has a byte with its length in front, a list has its count, and nothing follows the last field.
//! The fields that bases have, too, are public.
#![tactic(auto)]

mod change;
mod decoding;
mod encoding;
mod fault;
pub mod fields;
mod laws;
pub mod put;
mod put_solution;
mod short;
mod size;
mod solution;

pub use command_types::Spelling;
pub use decoding::decode;
pub use encoding::encode;
pub use fault::{DecodeFault, ReadFault};
pub use laws::{spellings_are_unique, turn_is_no_change};
pub use short::encode_short;
pub use size::length;
