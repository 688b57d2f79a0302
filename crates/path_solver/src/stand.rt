//! Where a walk stands.

ghost use Rattle.std.specs.Prelude.{◌≡◌, ◌<◌, nat_lt, if◌then◌else◌, All, slice_index, length};
ghost use Rattle.residual_graph.specs.Arcs.{arc_count, tail};

use crate::labels::Labels;
use residual_graph::Residual;

/// How many arcs of its path a walk has behind it, and the member to which they lead.
#[derive(Clone, Copy)]
pub struct Stand {
    pub done: usize,
    pub here: u16,
}

/// A walk from a member, over which prices and levels it goes, and where it stands.
#[derive(Clone, Copy)]
pub struct Trip<'a> {
    pub labels: &'a Labels<'a>,
    pub from: u16,
    pub stand: Stand,
}

impl Stand {
    /// At the start of a walk.
    pub fn at(start: u16) -> Stand
        ensures done { result.done ≡ 0 }
        ensures here { result.here ≡ start }
    {
        Stand {
            done: 0,
            here: start,
        }
    }

    /// Behind so many arcs of a path that leads to `end`.
    pub fn behind(residual: &Residual, path: &[u32], done: usize, end: u16) -> Stand
        requires { All (λ a. a < arc_count residual.now.flows) path.now }
        ensures done { result.done ≡ done }
        ensures here { result.here ≡ (if nat_lt done (length path.now) then tail residual.now.flows (slice_index path.now done) else end) }
    {
        let here = if done < path.len() {
            residual.tail(path[done])
        } else {
            end
        };
        Stand { done, here }
    }
}
