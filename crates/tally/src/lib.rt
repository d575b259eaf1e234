//! Laws of counting: the count is its last load plus the signed steps since, modulo 2^32.
#![tactic(auto)]

ghost use Rattle.tally.specs.Laws.{CountAlone, Figures, TallyStands};

/// A tally of loads and steps stands for the count, whatever call comes next.
#[tactic(auto, using(crate::proofs::Stands::tally_stands_lem))]
pub fn tally_stands()
    ensures { TallyStands }
{}

/// What becomes of the count depends on it and the call alone, and not on the rest of the counter.
#[tactic(auto, unfolding(counter::specs::Counters::ticked, counter::specs::Registers::commanded, counter::specs::Registers::compare_written, counter::specs::Registers::control_written, counter::specs::Registers::data_read, counter::specs::Registers::entered, counter::specs::Registers::left, counter::specs::Registers::preload_loaded, counter::specs::Registers::preload_written, counter::specs::Registers::status_cleared))]
pub fn count_alone()
    ensures { CountAlone }
{}

/// Worked examples from power-on by registers and ticks.
#[tactic(auto, unfolding(counter::specs::Counters::ticked, counter::specs::Registers::commanded, counter::specs::Registers::control_written, counter::specs::Registers::preload_written, counter_control::specs::Words::decoded, counter_count::specs::Ticks::advanced, counter_count::specs::Ticks::advance_outcome))]
pub fn figures()
    ensures { Figures }
{}
