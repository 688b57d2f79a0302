//! What is written of a machine, so that a history can begin again where it stands.

ghost use Rattle.std.specs.Prelude.{◌≡◌, map, IfOk};
ghost use Rattle.command_types.specs.declared.roster.MemberRow.{MemberRow};
ghost use Rattle.command_types.specs.declared.roster.ProductRow.{ProductRow};

use super::Machine;
use super::cycle::is_open;
use command_types::{Base, Listed, MemberRow, ProductRow};
use std::alloc::{AllocError, Global};
use units_core::Name;

fn member_names(alloc: Global, rows: &[MemberRow]) -> Result<Vec<Name>, AllocError>
    ensures { IfOk result (λ names. names.items ≡ map (λ (row : MemberRow). row.name) rows.now) }
{
    let mut names = Vec::new(alloc);
    for row in rows {
        names.push(row.name)?;
    }
    Ok(names)
}

fn product_names(alloc: Global, rows: &[ProductRow]) -> Result<Vec<Name>, AllocError>
    ensures { IfOk result (λ names. names.items ≡ map (λ (row : ProductRow). row.name) rows.now) }
{
    let mut names = Vec::new(alloc);
    for row in rows {
        names.push(row.name)?;
    }
    Ok(names)
}

impl Machine {
    ghost use Rattle.cycle_states.specs.BaseOf.{base_of};

    /// What is written of the machine at this position: none exactly where a cycle is open. The only error is want of
    /// memory.
    pub fn base(&self, alloc: Global, position: u64) -> Result<Option<Base>, AllocError>
        ensures { IfOk result (λ base. base ≡ base_of position self.now.state) }
    {
        if is_open(self.cycle.phase()) {
            return Ok(None);
        }
        let members = member_names(alloc, self.roster.members())?;
        let products = product_names(alloc, self.roster.products())?;
        let tolerances = self.tolerances.rows()?;
        let trades = self.book.rows().to_vec(alloc)?;
        Ok(Some(Base {
            position,
            cycle: self.cycle.number(),
            version: self.cycle.version(),
            members: Listed::new(members),
            products: Listed::new(products),
            tolerances: Listed::new(tolerances),
            trades: Listed::new(trades),
        }))
    }
}
