//! The law of delivered positions: what a transmission over a rig puts into the Data Register.
#![tactic(auto)]

ghost use Rattle.delivered.specs.Delivery.{Delivers};
ghost use Rattle.delivered.specs.Example.{DeliversTwo};

/// Every transmission that completes over a rig, with settings that fit its sensor, delivers the position that the sensor had
/// before the clock first fell.
pub fn positions_delivered()
    ensures { Delivers }
{}

/// A delivered position, computed: every premise of the law is met by a list of calls from power-on.
#[tactic(auto, using(crate::proofs::Computed::delivers_two))]
pub fn two_delivered()
    ensures { DeliversTwo }
{}
