//! What members allow a compression to change: their settings, and the limits of a product that follow from them.
#![tactic(auto)]

mod laws;
mod limits;
mod open_pairs;
mod open_rows;
mod pair_cursor;
mod product_settings;
mod settings;
mod tolerances;

pub use laws::{
    bounds_are_the_pairs, bounds_have_owners, free_mode_reaches_floor, held_is_kept,
    limits_are_good, network_is_within, no_cycle_is_left, nothing_is_kept,
};
pub use limits::may_grow;
pub use tolerances::{FloorOverCeiling, Tolerances};
