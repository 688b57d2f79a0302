//! Bases of histories as the bytes in front of a journal's records, written and read. What is written has one spelling; a base
//! behind which records have no moments is read too.
//!
//! A base is one byte for the spelling of the records behind it, the position, cycle and version, the names, the settings and the
//! trades. Its fields have the form that those of records have.
#![tactic(auto)]

mod decoding;
mod encoding;
mod fields;
mod laws;
mod parts;
mod put;

pub use decoding::decode_base;
pub use encoding::encode_base;
pub use laws::base_spellings_are_unique;
