//! Room for searches and walks.

ghost use Rattle.std.specs.Prelude.{◌≡◌, ◌≤◌, replicate, IfOk};

use crate::search::UNREACHED;
use member_set::MemberSet;
use std::alloc::{AllocError, Global};

/// The level of each member, the members of each level, and as many arcs as a path has at the most.
#[derive(Drop)]
pub struct Room {
    pub levels: Vec<u16>,
    pub layers: Vec<MemberSet>,
    pub path: Vec<u32>,
}

impl Room {
    ghost use Rattle.path_solver.specs.Works.{IsRoom};

    /// Room for so many members.
    pub fn of(alloc: Global, members: u16) -> Result<Room, AllocError>
        requires { members ≤ 256 }
        ensures { IfOk result (IsRoom members) }
    {
        let levels = vec![in alloc; UNREACHED; members as usize]?;
        let layers = all_of(alloc, members + 1, MemberSet::new())?;
        let path = vec![in alloc; 0u32; members as usize]?;
        Ok(Room {
            levels,
            layers,
            path,
        })
    }
}

/// As many of one value as there are members.
pub fn all_of<T: Copy>(alloc: Global, members: u16, value: T) -> Result<Vec<T>, AllocError>
    ensures { IfOk result (λ values. values.items ≡ replicate members value) }
{
    let mut values = Vec::with_capacity(alloc, members as usize)?;
    for _member in 0..members {
        values.push(value)?;
    }
    Ok(values)
}
