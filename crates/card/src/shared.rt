//! What the card keeps for no single channel.
ghost use Rattle.std.specs.Prelude.{◌≡◌, ◌^◌, ◌<◌};
ghost use Rattle.card.specs.Shared.{control_set, debounce_set, word_of_enables, expiry, interrupts_set, new_shared, mask_of_outputs, outputs_enabled, shared_ticked, timer_acknowledged};

use bits::{flag, with_bit};
use filter::debounce::Debounce;
use parts::interrupt::Interrupt;
use timer::Timer;

/// The bits and registers that all channels share.
#[derive(Clone, Copy)]
pub struct Shared {
    /// TST EN, which drives nothing.
    pub test_enabled: bool,
    /// MCR ITRIG: the interval timer triggers snapshots.
    pub timer_triggers: bool,
    /// A trigger came before the last snapshot was read.
    pub overflow: bool,
    /// The 24 V inputs' debouncing time and base.
    pub input_debounce: Debounce,
    /// DOEN03.
    pub low_outputs: bool,
    /// DOEN47.
    pub high_outputs: bool,
    pub timer: Timer,
    /// TIEN and TISTA.
    pub timer_interrupt: Interrupt,
    /// IRQ ACK CONFIG: reading an interrupt status register clears it.
    pub clear_on_read: bool,
    pub scratchpad: u32,
}

impl Shared {
    pub(crate) fn power_on() -> Shared
        ensures { result ≡ new_shared }
    {
        Shared {
            test_enabled: false,
            timer_triggers: false,
            overflow: false,
            input_debounce: Debounce::power_on(),
            low_outputs: false,
            high_outputs: false,
            timer: Timer::power_on(),
            timer_interrupt: Interrupt::power_on(),
            clear_on_read: false,
            scratchpad: 0,
        }
    }

    /// The timer's tick; whether it expired.
    pub(crate) fn tick(&mut self) -> bool
        ensures answer { result ≡ expiry self.old }
        ensures after { self.new ≡ shared_ticked self.old }
    {
        let expired = self.timer.tick();
        self.timer_interrupt.raise(expired);
        expired
    }

    /// TST EN and MCR ITRIG of Global Control.
    pub(crate) fn write_control(&mut self, word: u32)
        ensures { self.new ≡ control_set word self.old }
    {
        self.timer_triggers = flag(word, 24);
        self.test_enabled = flag(word, 25);
    }

    pub(crate) fn write_input_debounce(&mut self, word: u32)
        ensures { self.new ≡ debounce_set word self.old }
    {
        self.input_debounce = Debounce::from(word);
    }

    pub(crate) fn enable_outputs(&mut self, word: u32)
        ensures { self.new ≡ outputs_enabled word self.old }
    {
        self.low_outputs = flag(word, 0);
        self.high_outputs = flag(word, 1);
    }

    /// TIEN and IRQ ACK CONFIG of Interrupt Enable.
    pub(crate) fn enable_interrupts(&mut self, word: u32)
        ensures { self.new ≡ interrupts_set word self.old }
    {
        self.timer_interrupt.enable(flag(word, 20));
        self.clear_on_read = flag(word, 31);
    }

    /// TISTA of Interrupt Status.
    pub(crate) fn acknowledge(&mut self, word: u32)
        ensures { self.new ≡ timer_acknowledged word self.old }
    {
        self.timer_interrupt.acknowledge(flag(word, 20));
    }

    pub(crate) fn enables_word(&self) -> u32
        ensures { result ≡ word_of_enables self.now }
    {
        let word = with_bit(0, 0, self.low_outputs);
        with_bit(word, 1, self.high_outputs)
    }

    /// The channels whose outputs are enabled.
    pub(crate) fn output_mask(&self) -> u8
        ensures { result ≡ mask_of_outputs self.now }
    {
        match (self.low_outputs, self.high_outputs) {
            (false, false) => 0x00,
            (true, false) => 0x0F,
            (false, true) => 0xF0,
            (true, true) => 0xFF,
        }
    }
}
