//! How many workers solve, and how many seats serve.

ghost use Rattle.std.specs.Prelude.{◌≡◌, ◌≤◌};

/// From 1 to 64 workers, or seats.
#[derive(Clone, Copy)]
pub struct Count {
    pub value: u32,
    pub ghost within: { (1 ≤ value) × (value ≤ 64) },
}

impl Count {
    /// As many as there are where no option says how many.
    pub fn usual() -> Count
        ensures { result.value ≡ 4 }
    {
        Count { value: 4 }
    }
}
