//! How the records of a journal are parted by the one that turns it from the first spelling to the second.
ghost use Rattle.std.specs.Prelude.{◌≡◌, ◌<◌, ◌^◌, [], ◌∷◌, ◌++◌, List, ℕ};
ghost use Rattle.command_types.specs.declared.spelling.Spelling.{Spelling};
ghost use Rattle.recovery.specs.Bodies as bodies;

use command_types::Spelling;

/// Of some records: the spelling behind them, how many changes are of the first spelling, and how many records behind those are
/// no changes, none or one.
#[derive(Clone, Copy)]
pub(crate) struct Parts {
    pub(crate) spelling: Spelling,
    pub(crate) first: u64,
    pub(crate) skipped: u64,
}

// Whether a record turns a journal that is in this spelling.
fn turns(spelling: Spelling, record_bytes: &[u8]) -> bool
    ensures { result ≡ bodies.turns spelling record_bytes.now }
{
    match spelling {
        Spelling::First => record_bytes == b"MOMENTS2".as_slice(),
        Spelling::Second => false,
    }
}

impl Parts {
    ghost use Rattle.record_pool.specs.Parts.{AreParts};

    /// The parts with one record more.
    pub(crate) fn behind(self, record_bytes: &[u8]) -> Parts
        requires { self.first < 2 ^ 63 }
        ensures { (start : Spelling) (records : List (List ℕ)) → AreParts start records self → AreParts start (records ++ record_bytes.now ∷ []) result }
    {
        if turns(self.spelling, record_bytes) {
            return Parts {
                spelling: Spelling::Second,
                first: self.first,
                skipped: 1,
            };
        }
        match self.spelling {
            Spelling::First => Parts {
                spelling: Spelling::First,
                first: self.first + 1,
                skipped: self.skipped,
            },
            Spelling::Second => self,
        }
    }
}
