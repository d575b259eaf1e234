//! The worked figures, proved jointly on the definitions that the contracts cite.
#![tactic(auto)]

ghost use Rattle.figures.specs.Figures.{WorkedFigures};

/// The worked figures of clock rates, filters, counting and Gray code.
#[tactic(auto, using(crate::proofs::Lows::never_seen), unfolding(filter::specs::Filters::samples_in, filter::specs::Filters::ticked, frame::specs::Gray::ungray, counter_control::specs::Words::decoded, counter_count::specs::Ticks::advanced, counter_count::specs::Ticks::advance_outcome, counter::specs::Counters::ticked, counter::specs::Registers::commanded, counter::specs::Registers::control_written, counter::specs::Registers::preload_written))]
pub fn worked_figures()
    ensures { WorkedFigures }
{}
