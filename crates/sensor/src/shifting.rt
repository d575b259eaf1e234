//! What the shift register of a sensor does in a tick.
ghost use Rattle.std.specs.Prelude.{◌≡◌, ℕ, true};
ghost use Rattle.std.specs.Result.{result_map_both};
ghost use Rattle.sensor.specs.Kinds.{at_zero};
ghost use Rattle.sensor.specs.Model.{admitted, begun, made, next_phase, phase_level, starts_frame, stepped_phase};
ghost use Rattle.sensor.specs.declared.phase.Phase.TheVariants.{Idle};

use crate::constants::Constants;
use crate::phase::Phase;
use crate::refusal::FieldRefusal;
use crate::shift_register::ShiftRegister;
use bits::flag;
use frame::sender::frame_word;

impl ShiftRegister {
    /// An idle one with these constants that has last seen its clock high; refused if a constant is out of range.
    pub(crate) fn new(constants: Constants) -> Result<ShiftRegister, FieldRefusal>
        ensures { result_map_both at_zero (λ e. e) result ≡ made constants }
    {
        if constants.in_range() {
            Ok(ShiftRegister {
                constants,
                phase: Phase::Idle,
                clock: true,
            })
        } else {
            Err(FieldRefusal::Value)
        }
    }

    /// Refuses a position that does not fit the data bits.
    #[tactic(auto, using(crate::proofs::Ranges::most_data, crate::proofs::Ranges::data_shifted))]
    pub(crate) fn admit(&self, position: u32) -> Result<(), FieldRefusal>
        ensures { result ≡ admitted self.now.constants position }
    {
        if u64::from(position) < 1u64 << self.constants.format.data_bits {
            Ok(())
        } else {
            Err(FieldRefusal::Value)
        }
    }

    /// The level that it shows.
    pub(crate) fn level(&self) -> bool
        ensures { result ≡ phase_level self.now.constants self.now.phase }
    {
        match self.phase {
            Phase::Idle => true,
            Phase::Sending { frame, rises } => {
                rises == 0 || flag(frame, self.constants.format.bits() - rises)
            }
            Phase::Recovering { .. } => false,
        }
    }

    /// Whether a clock level begins a frame.
    fn starts(&self, clock: bool) -> bool
        ensures { result ≡ starts_frame self.now.phase self.now.clock clock }
    {
        matches!(self.phase, Phase::Idle) && self.clock && !clock
    }

    /// Begins the frame of a position, with the clock at a level.
    fn start(&mut self, clock: bool, position: u32)
        ensures constants { self.new.constants ≡ self.old.constants }
        ensures phase { self.new.phase ≡ begun self.old.constants position }
        ensures clock { self.new.clock ≡ clock }
    {
        let frame = frame_word(self.constants.format, position, self.constants.extra);
        self.phase = Phase::Sending { frame, rises: 0 };
        self.clock = clock;
    }

    /// One tick that begins no frame.
    fn step(&mut self, clock: bool)
        ensures constants { self.new.constants ≡ self.old.constants }
        ensures phase { self.new.phase ≡ stepped_phase self.old.constants self.old.phase self.old.clock clock }
        ensures clock { self.new.clock ≡ clock }
    {
        self.phase = self.stepped(clock);
        self.clock = clock;
    }

    fn stepped(&self, clock: bool) -> Phase
        ensures { result ≡ stepped_phase self.now.constants self.now.phase self.now.clock clock }
    {
        match self.phase {
            Phase::Sending { .. } if self.clock || !clock => self.phase,
            Phase::Sending { frame, rises } if rises < self.constants.format.bits() =>
                Phase::Sending {
                    frame,
                    rises: rises + 1,
                },
            Phase::Sending { .. } => Phase::Recovering {
                left: self.constants.recovery,
            },
            Phase::Recovering { left } if left > 1 => Phase::Recovering { left: left - 1 },
            Phase::Idle | Phase::Recovering { .. } => Phase::Idle,
        }
    }

    /// One tick; the position is asked for where a frame begins, and in no other tick. The clause `phase` holds of the
    /// position that the closure gives.
    pub(crate) fn advance<P: FnOnce() -> u32 + Drop>(&mut self, clock: bool, position: P)
        requires { P.IsAlwaysCallable position }
        ensures constants { self.new.constants ≡ self.old.constants }
        ensures phase { (p : ℕ) → ((q : ℕ) → P.post position q → q ≡ p) → self.new.phase ≡ next_phase self.old.constants p self.old.phase self.old.clock clock }
        ensures clock { self.new.clock ≡ clock }
    {
        if self.starts(clock) {
            self.start(clock, position());
        } else {
            self.step(clock);
        }
    }

    /// Idle, and the clock last seen high.
    pub(crate) fn reset(&mut self)
        ensures constants { self.new.constants ≡ self.old.constants }
        ensures phase { self.new.phase ≡ Idle }
        ensures clock { self.new.clock ≡ true }
    {
        self.phase = Phase::Idle;
        self.clock = true;
    }
}
