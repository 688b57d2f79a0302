//! Whose the bounds of a pair are. What members set and hold is looked up only where it can be told.

ghost use Rattle.std.specs.Prelude.{◌≡◌, IfOk};
ghost use Rattle.network_laws.specs.Networks.{at};
ghost use Rattle.command_types.specs.MemberProofs.{whose_ceiling, whose_lower, whose_upper};
ghost use Rattle.command_types.specs.Tolerances.{ceiling_in, floor_in};
ghost use Rattle.command_types.specs.declared.trade.Side.TheVariants.{Out, In};
ghost use Rattle.cycle_states.specs.Machine.{FrozenAreLive};
ghost use Rattle.cycle_states.specs.MemberProofs.{part_in};

use super::held_pair::is_held_of_pair;
use super::part::Part;
use command_types::{Level, Side, Whose};
use std::alloc::AllocError;
use units_core::MemberNo;

/// Whose a lower bound of a pair is. The only error is want of memory.
pub(super) fn lower_of(
    part: &Part,
    seller: u16,
    buyer: u16,
    lower: u64,
) -> Result<Whose, AllocError>
    requires live { FrozenAreLive part.now.book.now.rows }
    ensures { IfOk result (λ whose. whose ≡ whose_lower lower (at (part_in part.now).held seller buyer) (floor_in part.now.tolerances.now.taken seller part.now.product buyer Out)) }
{
    if lower == 0 {
        return Ok(Whose::Nobody);
    }
    if is_held_of_pair(part, seller, buyer, lower)? {
        return Ok(Whose::Hold);
    }
    let (out, into) = (MemberNo(seller), MemberNo(buyer));
    let floor = part.tolerances.floor(out, part.product, into, Side::Out);
    if lower <= floor {
        Ok(Whose::Seller)
    } else {
        Ok(Whose::Buyer)
    }
}

// Whose the smaller of the seller's and the buyer's ceilings is.
fn whose_ceiling(seller: Option<Level>, buyer: Option<Level>) -> Whose
    ensures { result ≡ whose_ceiling seller buyer }
{
    match (seller, buyer) {
        (None, None) => Whose::Nobody,
        (Some(_), None) => Whose::Seller,
        (None, Some(_)) => Whose::Buyer,
        (Some(first), Some(second)) => {
            if first.get() <= second.get() {
                Whose::Seller
            } else {
                Whose::Buyer
            }
        }
    }
}

/// Whose the upper bound of a pair is that may grow or not.
pub(super) fn upper_of(part: &Part, seller: u16, buyer: u16, grows: bool) -> Whose
    ensures { result ≡ whose_upper grows (ceiling_in part.now.tolerances.now.taken seller part.now.product buyer Out) (ceiling_in part.now.tolerances.now.taken buyer part.now.product seller In) }
{
    if !grows {
        return Whose::Now;
    }
    let (out, into) = (MemberNo(seller), MemberNo(buyer));
    let sold = part.tolerances.ceiling(out, part.product, into, Side::Out);
    let bought = part.tolerances.ceiling(into, part.product, out, Side::In);
    whose_ceiling(sold, bought)
}
