//! What holds of a PROPOSE, and of a script's text, in every history.
#![tactic(auto)]

mod laws;

pub use laws::{
    others_overtake, proposals_alone_stand, proposals_are_never_bad, proposals_are_overtaken,
    script_texts_are_one, scripts_stand_alone,
};

#[cfg(test)]
mod tests;
