//! The potentials of a draft.

ghost use Rattle.std.specs.Prelude.{◌≡◌, ◌+◌, ◌≤◌, ◌<◌, ◌^◌, ℤ, [], length, OnOk};
ghost use Rattle.network_laws.specs.Solutions.{IsPotential};
ghost use Rattle.command_types.specs.Session.{draft_potential, with_draft_potential};
ghost use Rattle.session.specs.Drafts.{potential_of, AreInRange};
ghost use Rattle.units_core.specs.declared.limits.TheConstants.{MOST_DRAFT};

use indexmap::IndexMap;
use std::alloc::{AllocError, Global};
use units_core::Name;

/// A product and a member, by their names.
#[derive(Clone, Copy, PartialEq, Eq, Hash)]
pub struct PlaceKey {
    pub product: Name,
    pub member: Name,
}

/// The potentials of a draft, in the order in which their members were first noted, each from -1,000,000 to 1,000,000.
#[derive(Drop)]
pub struct DraftPotentials {
    values: IndexMap<PlaceKey, i32>,
    ghost in_range: { AreInRange values.entries },
}

impl DraftPotentials {
    ghost use Rattle.session.specs.Kept.{kept_potentials, HasPotentialRoom};
    ghost use Rattle.units_core.specs.declared.limits.TheConstants.{MOST_DRAFT};

    /// No potentials, without memory.
    pub fn new(alloc: Global) -> DraftPotentials
        ensures { kept_potentials result ≡ [] }
    {
        DraftPotentials {
            values: IndexMap::new(alloc),
        }
    }

    /// How many potentials there are.
    pub fn len(&self) -> usize
        ensures { result ≡ length (kept_potentials self.now) }
    {
        self.values.len()
    }

    /// How many potentials there would be with one of this member.
    pub fn len_with(&self, key: &PlaceKey) -> usize
        requires { length (kept_potentials self.now) ≤ MOST_DRAFT }
        ensures len { (value : ℤ) → result ≡ length (with_draft_potential (potential_of (key.now, value)) (kept_potentials self.now)) }
        ensures most { result ≤ length (kept_potentials self.now) + 1 }
    {
        if self.values.contains_key(key) {
            return self.values.len();
        }
        self.values.len() + 1
    }

    /// The potential of a member in a product, or 0.
    pub fn value(&self, key: &PlaceKey) -> i32
        ensures value { result ≡ draft_potential key.now.product key.now.member (kept_potentials self.now) }
        ensures in_range { IsPotential result }
    {
        self.values.get(key).copied().unwrap_or(0)
    }

    /// Takes the memory for one more potential.
    pub fn reserve(&mut self) -> Result<(), AllocError>
        ensures potentials { kept_potentials self.new ≡ kept_potentials self.old }
        ensures room { OnOk result (HasPotentialRoom self.new) }
    {
        self.values.reserve(1)
    }

    /// Notes a potential in the place of the member's earlier one, or else last. The memory for it was taken.
    pub fn note(&mut self, key: PlaceKey, value: i32)
        requires room { HasPotentialRoom self.old }
        requires in_range { IsPotential value }
        ensures { kept_potentials self.new ≡ with_draft_potential (potential_of (key, value)) (kept_potentials self.old) }
    {
        let Ok(_) = self.values.insert(key, value) else {
            unreachable!()
        };
    }

    /// Drops all potentials.
    pub fn clear(&mut self)
        ensures { kept_potentials self.new ≡ [] }
    {
        self.values.clear();
    }
}
