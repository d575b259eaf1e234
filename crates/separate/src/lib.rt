//! The channels are kept apart: what is done for others never shows in a channel's own answers.
#![tactic(auto)]

ghost use Rattle.separate.specs.Example.{AlikeForOne};
ghost use Rattle.separate.specs.Separation.{Separate};

/// Two lists of calls on new cards that are alike for a channel give that channel the same answers at every place;
/// two lists that differ and are alike stand beside it.
#[tactic(auto, using(crate::proofs::Apart::separate, crate::proofs::Witness::alike_for_one))]
pub fn channels_apart()
    ensures apart { Separate }
    ensures example { AlikeForOne }
{}
