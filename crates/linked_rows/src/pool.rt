//! Where a new value's node comes from: a free one, or a new one behind all others.

ghost use Rattle.std.specs.Prelude.{◌≡◌, ◌==◌, ◌+◌, ◌-◌, ◌<◌, ◌≤◌, ◌∷◌, ◌++◌, [], length, slice_set, if◌then◌else◌, vec_len, vec_capacity};
ghost use Rattle.linked_rows.specs.Taking.{taken_place, taken_links, taken_values, CanTake};

use crate::links::{Link, take_out};

/// Takes the first free node, or a new one where none is free, and gives it the value. It is in no ring then.
pub(super) fn take_free<T: Copy>(
    links: &mut Vec<Link>,
    values: &mut Vec<T>,
    free: u64,
    value: T,
) -> u64
    requires { CanTake links.old.items values.old.items free (vec_capacity links.old) (vec_capacity values.old) }
    ensures place { result ≡ taken_place links.old.items free }
    ensures links { links.new.items ≡ taken_links links.old.items free }
    ensures values { values.new.items ≡ taken_values links.old.items values.old.items free value }
    ensures links_capacity { vec_capacity links.new ≡ vec_capacity links.old }
    ensures values_capacity { vec_capacity values.new ≡ vec_capacity values.old }
{
    let first = links[free as usize].after;
    if first == free {
        let place = links.len() as u64;
        links.push_reserved(Link {
            before: place,
            after: place,
        });
        values.push_reserved(value);
        place
    } else {
        take_out(links, first);
        values[(first - free - 1) as usize] = value;
        first
    }
}
