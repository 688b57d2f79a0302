//! A network with the potentials that certify it.

ghost use Rattle.std.specs.Prelude.{◌≡◌, ℕ, length, IfOk, All};
ghost use Rattle.network_laws.specs.Solutions.{SolutionData, IsSolution, IsPotential};

use crate::network::Network;
use std::alloc::AllocError;
use std::marker::Model;

/// A network and one potential for each of its members, in units of gross per unit moved: the dual
/// variables of minimum-cost flow (Ahuja, Magnanti and Orlin, *Network Flows*). Each potential is at most
/// `MOST_POTENTIAL`, and no less than that with a minus.
#[derive(Drop)]
pub struct Solution {
    network: Network,
    potentials: Vec<i32>,
}

impl Model for Solution {
    ghost use Rattle.network_laws.specs.Solutions.{SolutionData, IsSolution};

    ghost Value = { SolutionData };

    ghost view = { λ a. record { network = a.network; potentials = a.potentials.items } };

    ghost invariant = { λ a. IsSolution (record { network = a.network; potentials = a.potentials.items }) };
}

impl Solution {
    /// The solution of a network and a potential for each of its members.
    pub fn new(network: Network, potentials: Vec<i32>) -> Solution
        requires one_each { length potentials.items ≡ network.members }
        requires in_range { All IsPotential potentials.items }
        ensures { result ≡ record { network = network; potentials = potentials.items } }
    {
        Solution {
            network,
            potentials,
        }
    }

    /// The network.
    pub fn network(&self) -> &Network
        ensures value { result.now ≡ self.now.network }
        ensures solution { IsSolution self.now }
    {
        &self.network
    }

    /// The potentials, in the order of members.
    pub fn potentials(&self) -> &[i32]
        ensures value { result.now ≡ self.now.potentials }
        ensures one_each { length result.now ≡ self.now.network.members }
        ensures solution { IsSolution self.now }
    {
        &self.potentials
    }

    /// An equal solution in memory of its own.
    pub fn copy(&self) -> Result<Solution, AllocError>
        ensures { IfOk result (λ s. s ≡ self.now) }
    {
        let network = self.network.copy()?;
        let potentials = self.potentials.clone()?;
        Ok(Solution {
            network,
            potentials,
        })
    }

    /// The network and the potentials again, without memory.
    pub fn into_parts(self) -> (Network, Vec<i32>)
        ensures network { result.0 ≡ self.network }
        ensures potentials { result.1.items ≡ self.potentials }
        ensures solution { IsSolution self }
    {
        (self.network, self.potentials)
    }
}
