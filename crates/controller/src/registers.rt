//! The SSI registers of a channel, and what requests, ticks and writes do to them.
ghost use Rattle.std.specs.Prelude.{◌≡◌};
ghost use Rattle.controller.specs.Phase.{phase_ticked};
ghost use Rattle.controller.specs.Registers.{begun, completed_by, completion, concluded, control_answer, control_written, phase_requested, powered_on, recorded, requested, completed_as, status_word, ticked};

use crate::control::SsiControl;
use crate::phase::{Due, Phase, Transmission};
use bits::{field, with_bit, with_field};
use frame::reader::read_frame;
use refusal::Refusal;

/// The SSI registers of a channel.
// The last frame's fields by the registers that show them, also before there was a frame, and no `frame::reader::Reading`.
#[derive(Clone, Copy, Default)]
pub struct Ssi {
    /// The SSI Mode Control Register.
    pub control: SsiControl,
    /// WHILE BUSY: a request came while the sensor was active.
    pub while_busy: bool,
    /// ZB STATUS: the extra bits of the last frame.
    pub extra_status: u32,
    /// FAULT: the data line had the wrong level before or after the last frame.
    pub fault: bool,
    /// PARITY STATUS: the parity bit of the last frame.
    pub parity_status: bool,
    /// PRY: the last frame had a parity error.
    pub parity_error: bool,
    /// The last completed data word.
    pub word: u32,
}

/// A transmission that has just completed.
#[derive(Clone, Copy)]
pub struct Completed {
    /// Its data word.
    pub word: u32,
    /// Whether the data line had a fault.
    pub fault: bool,
}

impl SsiControl {
    /// A transmission with these settings, just before the tick in which the clock first falls; the clock rate 0 gives none.
    fn begin(&self) -> Option<Transmission>
        ensures { result ≡ begun self.now }
    {
        let half = 50_000_u32.checked_div(self.rate)?;
        Some(Transmission {
            half,
            format: self.format(),
            high: true,
            rises: 0,
            wait: 0,
            word: 0,
            fault: false,
        })
    }
}

impl Ssi {
    /// The registers at power-on.
    pub fn power_on() -> Ssi
        ensures { result ≡ powered_on }
    {
        Ssi::default()
    }

    /// A write to the SSI Mode Control Register.
    #[tactic(auto, unfolding(crate::specs::Registers::control_written))]
    pub fn write_control(&mut self, word: u32) -> Result<(), Refusal>
        ensures answer { result ≡ control_answer word }
        ensures after { self.new ≡ control_written word self.old }
    {
        self.control = SsiControl::try_from(word)?;
        Ok(())
    }

    /// A request: starts a transmission unless the sensor is active or the clock rate is 0.
    #[tactic(auto, unfolding(crate::specs::Registers::phase_requested, crate::specs::Registers::requested))]
    pub fn request(&mut self, phase: &mut Phase)
        ensures phase { phase.new ≡ phase_requested self.old phase.old }
        ensures after { self.new ≡ requested phase.old self.old }
    {
        match (&*phase, self.control.begin()) {
            (Phase::Waiting, None) => {}
            (Phase::Waiting, Some(transmission)) => {
                self.while_busy = false;
                *phase = Phase::Clocking(transmission);
            }
            _ => self.while_busy = true,
        }
    }

    /// Puts what a frame says into the registers.
    fn conclude(&mut self, transmission: &Transmission, level: bool) -> Completed
        ensures answer { result ≡ completed_as level transmission.now }
        ensures after { self.new ≡ concluded level transmission.now self.old }
    {
        let reading = read_frame(transmission.format, transmission.word);
        let fault = transmission.fault || level;
        self.extra_status = reading.extra;
        self.fault = fault;
        self.parity_status = reading.parity_bit;
        self.parity_error = reading.parity_error;
        self.word = reading.number;
        Completed {
            word: reading.number,
            fault,
        }
    }

    /// What is due concludes a transmission or leaves the registers.
    fn record(&mut self, phase: &Phase, due: Option<Due>, level: bool) -> Option<Completed>
        ensures answer { result ≡ completed_by due level phase.now }
        ensures after { self.new ≡ recorded due level phase.now self.old }
    {
        match (phase, due) {
            (Phase::Clocking(transmission), Some(Due::Completion)) => Some(self.conclude(
                transmission,
                level,
            )),
            _ => None,
        }
    }

    /// A tick with the filtered data line at `level`; answers a transmission that completes.
    #[tactic(auto, unfolding(crate::specs::Phase::phase_ticked, crate::specs::Registers::completion, crate::specs::Registers::ticked))]
    pub fn tick(&mut self, phase: &mut Phase, level: bool) -> Option<Completed>
        ensures answer { result ≡ completion level phase.old }
        ensures phase { phase.new ≡ phase_ticked level phase.old }
        ensures after { self.new ≡ ticked level phase.old self.old }
    {
        let due = phase.due();
        let completed = self.record(phase, due, level);
        phase.step(due, level);
        completed
    }

    /// The SSI Mode Status word, with SENSOR STATUS and BSY of the controller's phase.
    // the two bits and not the phase, so that the word is promised for each pair of them
    pub fn status(&self, active: bool, busy: bool) -> u32
        ensures { result ≡ status_word active busy self.now }
    {
        let w = u32::from(busy);
        let w = with_bit(w, 1, self.parity_error);
        let w = with_bit(w, 2, self.parity_status);
        let w = with_bit(w, 3, self.fault);
        let w = with_field(w, 4, 8, field(self.extra_status, 0, 8));
        let w = with_bit(w, 15, active);
        with_bit(w, 16, self.while_busy)
    }
}
