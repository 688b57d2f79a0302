//! The names that commands have.

use crate::market::named;
use units_core::Name;

/// The names of the dealers, of the customer and the operator, of a key, and of two products.
#[derive(Clone, Copy)]
pub enum Word {
    A,
    B,
    C,
    D,
    Ops,
    KeyA,
    P,
    Q,
}

impl Word {
    pub fn name(self) -> Name {
        match self {
            Word::A => named(b"A"),
            Word::B => named(b"B"),
            Word::C => named(b"C"),
            Word::D => named(b"D"),
            Word::Ops => named(b"OPS"),
            Word::KeyA => named(b"KA"),
            Word::P => named(b"P"),
            Word::Q => named(b"Q"),
        }
    }
}
