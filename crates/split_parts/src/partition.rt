//! The parts of limits by their members alone.

ghost use Rattle.std.specs.Prelude.{◌≡◌, ◌<◌, [], length, slice_index_or, IfOk};
ghost use Rattle.network_laws.specs.Limits.{IsWithinLimits};
ghost use Rattle.split_parts.specs.Own.{own_problem};
ghost use Rattle.split_parts.specs.Parts.{IsPartitionOf};

use crate::labels::labels_of;
use crate::members::parts_with;
use crate::own::{PartAt, problem_of};
use crate::part::Part;
use crate::places::{Place, places_of};
use network_laws::{Limits, Network, Problem};
use std::alloc::{AllocError, Global};
use std::marker::Model;

/// The parts of limits, in order of their smallest member, and where each member stands. The problem of a part is made by
/// [`Partition::problem`], so that who solves a part can make it.
#[derive(Drop)]
pub struct Partition {
    parts: Vec<Part>,
    places: Vec<Place>,
}

impl Model for Partition {
    ghost use Rattle.std.specs.Prelude.{length};
    ghost use Rattle.split_parts.specs.Parts.{PartitionData};
    ghost use Rattle.split_parts.specs.Places.{ArePlaces};

    ghost Value = { PartitionData };

    ghost view = { λ p. record { members = length p.places.items; parts = p.parts.items } };

    ghost invariant = { λ p. ArePlaces p.parts.items (length p.places.items) (length p.parts.items) p.places.items };
}

impl Partition {
    /// The parts of the limits. Members that a chain of pairs joins whose upper bound is not 0 are one part. The only error
    /// is want of memory.
    pub fn of(alloc: Global, limits: &Limits) -> Result<Partition, AllocError>
        ensures { IfOk result (IsPartitionOf limits.now) }
    {
        let labels = labels_of(alloc, limits)?;
        let members = limits.members();
        let parts = parts_with(alloc, &labels)?;
        let places = places_of(alloc, members, &parts)?;
        Ok(Partition { parts, places })
    }

    /// The members of each part.
    pub fn parts(&self) -> &[Part]
        ensures { result.now ≡ self.now.parts }
    {
        &self.parts
    }

    /// The members of each part, without the rest.
    pub fn into_parts(self) -> Vec<Part>
        ensures { result.items ≡ self.parts }
    {
        self.parts
    }

    /// The problem of the part at a place: its limits and its network, in its own numbers. The only error is want of memory.
    pub fn problem(
        &self,
        alloc: Global,
        limits: &Limits,
        network: &Network,
        at: usize,
    ) -> Result<Problem, AllocError>
        requires same_members { limits.now.members ≡ network.now.members }
        requires within { IsWithinLimits limits.now network.now }
        requires parts { IsPartitionOf limits.now self.now }
        requires here { at < length self.now.parts }
        ensures { IfOk result (λ own. own ≡ own_problem limits.now network.now (slice_index_or self.now.parts at [])) }
    {
        let _members = limits.members();
        let part = PartAt {
            members: self.parts[at].members(),
            places: &self.places,
            part: at,
        };
        problem_of(alloc, limits, network, part)
    }
}
