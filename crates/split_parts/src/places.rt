//! Where each member stands: in which part, and with which number.

ghost use Rattle.std.specs.Prelude.{◌≡◌, ◌<◌, ◌≤◌, ℕ, length, slice_index_or, All, AllPairs, IfOk};
ghost use Rattle.split_parts.specs.declared.places.Place.{Place};
ghost use Rattle.split_parts.specs.Own.{number_in};
ghost use Rattle.split_parts.specs.Parts.{IsRisingPart, IsPart, AreApart};
ghost use Rattle.split_parts.specs.Places.{ArePlaces, place_or};
ghost use Rattle.units_core.specs.declared.limits.TheConstants.{MOST_MEMBERS};

use crate::part::Part;
use std::alloc::{AllocError, Global};

/// The place of a member's part among the parts, and its own number there. Who is in no part stands behind the last one.
#[derive(Clone, Copy)]
pub struct Place {
    pub part: usize,
    pub number: u16,
}

// Gives each member of a part its place.
fn put_part(places: &mut [Place], members: &[u16], part: usize)
    requires rising { IsRisingPart members.now }
    requires within { All (λ m. m < length places.old) members.now }
    requires few { length places.old ≤ MOST_MEMBERS }
    ensures { (m : ℕ) (d : Place) → m < length places.old → slice_index_or places.new m d ≡ place_or (number_in members.now m) part (slice_index_or places.old m d) }
{
    for number in 0..members.len() {
        places[members[number] as usize] = Place {
            part,
            number: number as u16,
        };
    }
}

/// The place of each member.
pub fn places_of(alloc: Global, members: u16, parts: &[Part]) -> Result<Vec<Place>, AllocError>
    requires few { members ≤ MOST_MEMBERS }
    requires each { All IsPart parts.now }
    requires apart { AllPairs AreApart parts.now }
    requires within { All (λ part. All (λ m. m < members) part) parts.now }
    ensures { IfOk result (λ places. ArePlaces parts.now members (length parts.now) places.items) }
{
    let none = Place {
        part: parts.len(),
        number: 0,
    };
    let mut places = vec![in alloc; none; members as usize]?;
    for part in 0..parts.len() {
        put_part(&mut places, parts[part].members(), part);
    }
    Ok(places)
}
