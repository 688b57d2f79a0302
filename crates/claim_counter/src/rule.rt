//! What a worker at the counter of claims knows, and the rule that every step keeps. The one word of the table is the
//! next number to be claimed.

use atomic_table::{Join, Play, Split, TableRule};
use std::collections::LinkedList;

/// What a worker knows. No value of it is made.
pub struct Claims {
    /// How many pieces there are.
    pub pieces: u64,
    /// The numbers that it, and those that it took in, have claimed.
    pub taken: LinkedList<u64>,
    /// How many numbers past the last piece it may still claim.
    pub room: u64,
    /// Its parts of the right to know all claims.
    pub parts: u64,
}

/// The rule of the table.
pub struct ClaimRule;

impl TableRule<u8, Claims, u64> for ClaimRule {
    ghost use Rattle.claim_counter.specs.Claims.{Kept, newcomer};

    ghost holds = { Kept };

    ghost first = { newcomer };
}

/// A number is claimed.
pub struct Claim;

impl Play<u8, Claims> for Claim {
    ghost use Rattle.claim_counter.specs.Claims.{claimed};

    ghost then = { λ s m n w. claimed m n w };
}

/// All claims are known.
pub struct Know;

impl Play<u8, Claims> for Know {
    ghost use Rattle.claim_counter.specs.Claims.{known};

    ghost then = { λ s m n w. known m n w };
}

/// A worker gets a part.
pub struct Cut;

impl Split<Claims> for Cut {
    ghost use Rattle.claim_counter.specs.Claims.{rest_of, worker};

    ghost left = { rest_of };

    ghost right = { worker };
}

/// A worker's claims are taken in.
pub struct Both;

impl Join<Claims> for Both {
    ghost use Rattle.claim_counter.specs.Claims.{both, nobody};

    ghost both = { both };

    ghost spent = { nobody };
}
