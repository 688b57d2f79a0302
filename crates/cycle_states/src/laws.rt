//! The law of effects, the contract of a function that does nothing.

ghost use Rattle.cycle_states.specs.Effects.{EffectIsNext};

/// Doing what a command does, as it was made ready in a state, leads to the next state.
pub fn effect_is_next()
    ensures { EffectIsNext }
{}
