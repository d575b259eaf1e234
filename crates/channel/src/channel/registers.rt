//! The registers of one channel, by their offset in the channel's span.
ghost use Rattle.std.specs.Prelude.{◌≡◌};
ghost use Rattle.channel.specs.Registers.{command_written, data_shown, data_taken, debounce_written, is_counter_mode, register_answer, register_shown, register_taken, register_written, ssi_status_shown, is_taking_requests};

use super::Channel;
use crate::mode::Mode;
use controller::control::Start;
use filter::debounce::Debounce;
use refusal::Refusal;

impl Channel {
    pub(super) fn in_counter_mode(&self) -> bool
        ensures { result ≡ is_counter_mode self.now }
    {
        matches!(self.mode, Mode::Counter)
    }

    /// LCNT and RCNT; a load that ends at the compare value is a match.
    fn command(&mut self, word: u32)
        ensures { self.new ≡ command_written word self.old }
    {
        let matched = self.counter.command(word);
        self.valid.raise(matched);
    }

    fn write_debounce(&mut self, word: u32)
        ensures { self.new ≡ debounce_written word self.old }
    {
        self.debounce = Debounce::from(word);
        self.lines.restart(self.debounce.period());
    }

    /// Whether a write of the Data Register is a request: at START 00.
    fn takes_requests(&self) -> bool
        ensures { result ≡ is_taking_requests self.now }
    {
        self.ssi.control.start == Start::Request
    }

    /// A write to the register at an offset in the channel's span; a refusal leaves the channel.
    #[tactic(auto, unfolding(crate::specs::Registers::register_written))]
    pub fn write(&mut self, offset: u32, value: u32) -> Result<(), Refusal>
        ensures answer { result ≡ register_answer offset value }
        ensures after { self.new ≡ register_written offset value self.old }
    {
        match offset {
            0x00 => self.ssi.write_control(value)?,
            0x08 => self.counter.write_control(value)?,
            0x0C => self.counter.clear_status(value),
            0x10 => self.counter.write_preload(value),
            0x14 => self.counter.write_compare(value),
            0x18 if self.in_counter_mode() => self.command(value),
            0x1C => self.write_debounce(value),
            0x20 if self.takes_requests() => self.request(),
            _ => {}
        }
        Ok(())
    }

    /// The Data Register; in Counter Mode a read unlocks it.
    fn read_data(&mut self) -> u32
        ensures answer { result ≡ data_shown self.old }
        ensures after { self.new ≡ data_taken self.old }
    {
        match self.mode {
            Mode::Off(_) => 0,
            Mode::Counter => self.counter.read_data(),
            Mode::Ssi(_) => self.ssi.word,
        }
    }

    fn ssi_status(&self) -> u32
        ensures { result ≡ ssi_status_shown self.now }
    {
        match &self.mode {
            Mode::Ssi(phase) => self.ssi.status(phase.active(), phase.busy()),
            _ => self.ssi.status(false, false),
        }
    }

    /// A read of the register at an offset in the channel's span.
    #[tactic(auto, unfolding(crate::specs::Registers::register_shown, crate::specs::Registers::register_taken))]
    pub fn read(&mut self, offset: u32) -> u32
        ensures answer { result ≡ register_shown offset self.old }
        ensures after { self.new ≡ register_taken offset self.old }
    {
        match offset {
            0x00 => u32::from(self.ssi.control),
            0x04 => self.ssi_status(),
            0x08 => self.counter.control_word(),
            0x0C => self.counter.status_word(),
            0x10 => self.counter.count.preload,
            0x14 => self.counter.compare,
            0x1C => u32::from(self.debounce),
            0x20 => self.read_data(),
            _ => 0,
        }
    }
}
