//! The laws of the controller: when it does what, and that its settings read back.
ghost use Rattle.controller.specs.Timing.{ClockToggles, Completes, ControlReadsBack, Delivers, KeepsTimes, ShowsCompleted, TakesBits};

/// From an accepted request on, clock, samples, completion and recovery come in their ticks, whatever is on the line.
pub fn timing_stands()
    ensures clock { ClockToggles }
    ensures sampled { TakesBits }
    ensures completes { Completes }
    ensures shows { ShowsCompleted }
    ensures delivers { Delivers }
    ensures times { KeepsTimes }
{}

/// A control word that is accepted reads as it was written.
pub fn control_reads_back()
    ensures { ControlReadsBack }
{}
