//! What a solver is given: limits, and a network within them.

ghost use Rattle.std.specs.Prelude.{◌≡◌, IfOk};
ghost use Rattle.network_laws.specs.Limits.{IsWithinLimits};
ghost use Rattle.network_laws.specs.Solutions.{ProblemData, IsProblem};

use crate::limits::Limits;
use crate::network::Network;
use std::marker::Model;

/// Limits and a network of the same members that is within them.
#[derive(Drop)]
pub struct Problem {
    limits: Limits,
    network: Network,
}

impl Model for Problem {
    ghost use Rattle.network_laws.specs.Solutions.{ProblemData, IsProblem};

    ghost Value = { ProblemData };

    ghost view = { λ a. record { limits = a.limits; network = a.network } };

    ghost invariant = { λ a. IsProblem (record { limits = a.limits; network = a.network }) };
}

impl Problem {
    /// The problem of these limits and this network.
    pub fn new(limits: Limits, network: Network) -> Problem
        requires same_members { limits.members ≡ network.members }
        requires within { IsWithinLimits limits network }
        ensures { result ≡ record { limits = limits; network = network } }
    {
        Problem { limits, network }
    }

    /// The limits.
    pub fn limits(&self) -> &Limits
        ensures value { result.now ≡ self.now.limits }
        ensures problem { IsProblem self.now }
    {
        &self.limits
    }

    /// The network.
    pub fn network(&self) -> &Network
        ensures value { result.now ≡ self.now.network }
        ensures problem { IsProblem self.now }
    {
        &self.network
    }

    /// The limits and the network again, without memory.
    pub fn into_parts(self) -> (Limits, Network)
        ensures limits { result.0 ≡ self.limits }
        ensures network { result.1 ≡ self.network }
        ensures problem { IsProblem self }
    {
        (self.limits, self.network)
    }
}
