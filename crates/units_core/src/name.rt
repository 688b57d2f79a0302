//! Names of members, operators, products and keys.
ghost use Rattle.std.specs.Prelude.{◌≡◌, if◌then◌else◌, Some, None, ◌≤◌, ◌↔◌, IsTrue, IsSome, IfSome, IfNone, List, ℕ, take, length, replicate};
ghost use Rattle.std.specs.List.{list_all};
ghost use Rattle.std.specs.Str.{bytes_eq};
ghost use Rattle.units_core.specs.declared.limits.TheConstants.{MOST_NAME};
ghost use Rattle.units_core.specs.Name.{is_name, is_name_byte, padded_name};

use crate::limits::MOST_NAME;
use std::marker::Model;

/// A name: 1 to 16 bytes (`MOST_NAME`) of A-Z, 0-9 and '-'. It is kept in place and takes no memory. Contracts see it as
/// its bytes.
#[derive(Clone, Copy, PartialEq, Eq, Hash)]
pub struct Name {
    bytes: [u8; MOST_NAME],
    size: usize,
}

impl Model for Name {
    ghost use Rattle.std.specs.Prelude.{List, ℕ, take, length};
    ghost use Rattle.units_core.specs.Name.{padded_name, IsKeptName};

    ghost Value = { List ℕ };

    ghost view = { λ n. take n.size n.bytes };

    ghost invariant = { λ n. IsKeptName n.bytes n.size };

    ghost inverse = { λ text. record { bytes = padded_name text; size = length text } };

    ghost inverse_ok = { λ a h i. record { bytes = h.padded i; size = h.sized i } };
}

fn is_byte_of_name(byte: u8) -> bool
    ensures { result ≡ is_name_byte byte }
{
    byte.is_ascii_uppercase() || byte.is_ascii_digit() || byte == b'-'
}

fn has_only_name_bytes(text: &[u8]) -> bool
    ensures { result ≡ list_all is_name_byte text.now }
{
    text.iter().all(|byte| is_byte_of_name(*byte))
}

fn is_text_of_name(text: &[u8]) -> bool
    ensures { result ≡ is_name text.now }
{
    if text.is_empty() || text.len() > MOST_NAME {
        return false;
    }
    has_only_name_bytes(text)
}

impl Name {
    /// The name with this text, exactly where the text is a name.
    pub fn read(text: &[u8]) -> Option<Name>
        ensures { result ≡ (if is_name text.now then Some text.now else None) }
    {
        let is_form = is_text_of_name(text);
        if !is_form {
            return None;
        }
        let size = text.len();
        let mut bytes = [0; MOST_NAME];
        bytes[..size].copy_from_slice(text);
        Some(Name { bytes, size })
    }

    /// The bytes of the name.
    pub fn text(&self) -> &[u8]
        ensures text { result.now ≡ self.now }
        ensures form { IsTrue (is_name self.now) }
        ensures size { length self.now ≤ MOST_NAME }
    {
        &self.bytes[..self.size]
    }

    /// Whether two names are the same.
    pub fn is(&self, other: &Name) -> bool
        ensures { result ≡ bytes_eq self.now other.now }
    {
        self.text() == other.text()
    }
}
