//! Assignments keep the kinds of holes.
ghost use Rattle.infer_table.specs.Own.{CompositionKeepsKinds};

/// Nothing: callers learn that of two assignments which keep the kinds of holes the one after the other
/// does too. A hole of integer types stands for an integer type or for another such hole under
/// both; so it does where what the first puts in its place is filled in by the second.
pub fn composition_keeps_kinds()
    ensures { CompositionKeepsKinds }
{}
