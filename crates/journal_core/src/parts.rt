//! The parts of a journal's bytes, each read from the front of those that are left.
ghost use Rattle.std.specs.Prelude.{◌≡◌, ◌≢◌, ◌<◌, ◌^◌, ◌∷◌, ◌++◌, List, ℕ, length, IfSome, IfNone};
ghost use Rattle.std.specs.Int.{w32, to_le_bytes};
ghost use Rattle.journal_core.specs.Walk.{NamesNoRecord};

// The number that four bytes spell, the lowest first.
fn number_of(bytes: &[u8]) -> u32
    requires { length bytes.now ≡ 4 }
    ensures { to_le_bytes w32 result ≡ bytes.now }
{
    u32::from_le_bytes([bytes[0], bytes[1], bytes[2], bytes[3]])
}

// The record whose length and bytes stand first, and what stands behind it.
pub(crate) fn record_of(body: &[u8]) -> Option<(&[u8], &[u8])>
    ensures found { IfSome result (λ p. body.now ≡ to_le_bytes w32 (length p.0.now) ++ p.0.now ++ p.1.now) }
    ensures small { IfSome result (λ p. length p.0.now < 2 ^ 32) }
    ensures none { IfNone result (NamesNoRecord body.now) }
{
    if body.len() < 4 {
        return None;
    }
    let (front, rest) = body.split_at(4);
    let size = number_of(front) as usize;
    if rest.len() < size {
        return None;
    }
    Some(rest.split_at(size))
}

// What stands behind an open gate, if one stands first.
pub(crate) fn behind_open(rest: &[u8]) -> Option<&[u8]>
    ensures open_gate { IfSome result (λ body. rest.now ≡ 1 ∷ body.now) }
    ensures shut { IfNone result ((body : List ℕ) → rest.now ≢ 1 ∷ body) }
{
    match rest {
        [1, body @ ..] => Some(body),
        _ => None,
    }
}
