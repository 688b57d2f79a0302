//! The parts of a problem.

ghost use Rattle.std.specs.Prelude.{◌≡◌, IfOk};
ghost use Rattle.network_laws.specs.Limits.{IsWithinLimits};
ghost use Rattle.split_parts.specs.Parts.{PartsData, ArePartsOf};

use crate::part::Part;
use crate::partition::Partition;
use network_laws::{Limits, Network, Problem};
use std::alloc::{AllocError, Global};
use std::marker::Model;

/// The parts of limits, in order of their smallest member, and the problem of each in its own numbers: the number of a
/// member in its part is its place there.
#[derive(Drop)]
pub struct Parts {
    members: Vec<Part>,
    problems: Vec<Problem>,
}

impl Model for Parts {
    ghost use Rattle.split_parts.specs.Parts.{PartsData};

    ghost Value = { PartsData };

    ghost view = { λ parts. record { members = parts.members.items; problems = parts.problems.items } };
}

impl Parts {
    /// The members of each part.
    pub fn members(&self) -> &[Part]
        ensures { result.now ≡ self.now.members }
    {
        &self.members
    }

    /// The problem of each part.
    pub fn problems(&self) -> &[Problem]
        ensures { result.now ≡ self.now.problems }
    {
        &self.problems
    }
}

/// The parts of the limits, each with its own limits and network. Members that a chain of pairs joins whose upper bound
/// is not 0 are one part. The only error is want of memory.
pub fn split(alloc: Global, limits: &Limits, network: &Network) -> Result<Parts, AllocError>
    requires same_members { limits.now.members ≡ network.now.members }
    requires within { IsWithinLimits limits.now network.now }
    ensures { IfOk result (ArePartsOf limits.now network.now) }
{
    let partition = Partition::of(alloc, limits)?;
    let count = partition.parts().len();
    let mut problems = Vec::with_capacity(alloc, count)?;
    for at in 0..count {
        let problem = partition.problem(alloc, limits, network, at)?;
        problems.push(problem)?;
    }
    Ok(Parts {
        members: partition.into_parts(),
        problems,
    })
}
