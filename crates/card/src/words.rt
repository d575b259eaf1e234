//! Shared registers, gathered from the channels and the shared part.
ghost use Rattle.std.specs.Prelude.{◌≡◌, ◌^◌, ◌<◌};
ghost use Rattle.card.specs.Words.{has_edge, word_of_control, word_of_debounce, outputs_driven, enables_of_interrupts, status_of_interrupts, levels_now, pair_of, register_word, word_of_test};

use crate::{Card, Levels};
use bits::{with_bit, with_field};
use channel::act::{Bit, Share};
use table::gather;

impl Card {
    /// A word with a bit of each channel in its lowest byte and another in the next.
    fn pair(&self, low: Bit, high: Bit) -> u32
        ensures answer { result ≡ pair_of low high self.now.channels }
        ensures below { result < 2 ^ 16 }
    {
        let word = gather(&self.channels, Share::Single(low));
        with_field(word, 8, 8, gather(&self.channels, Share::Single(high)))
    }

    /// Global Control.
    fn control_word(&self) -> u32
        ensures { result ≡ word_of_control self.now }
    {
        let word = gather(&self.channels, Share::Mode);
        let word = with_field(
            word,
            16,
            8,
            gather(&self.channels, Share::Single(Bit::SnapshotEnabled)),
        );
        let word = with_bit(word, 24, self.shared.timer_triggers);
        with_bit(word, 25, self.shared.test_enabled)
    }

    /// 24 V Input Debouncing.
    fn debounce_word(&self) -> u32
        ensures { result ≡ word_of_debounce self.now }
    {
        let enables = gather(&self.channels, Share::Single(Bit::InputDebounced));
        with_field(u32::from(self.shared.input_debounce), 24, 8, enables)
    }

    /// The outputs that are on: DO under DOEN.
    fn driven_outputs(&self) -> u8
        ensures { result ≡ outputs_driven self.now }
    {
        gather(&self.channels, Share::Single(Bit::Output)) as u8 & self.shared.output_mask()
    }

    /// What the card drives now.
    pub(crate) fn levels(&self) -> Levels
        ensures { result ≡ levels_now self.now }
    {
        Levels {
            clocks: gather(&self.channels, Share::Single(Bit::Clock)) as u8,
            outputs: self.driven_outputs(),
        }
    }

    /// Interrupt Enable.
    fn interrupt_enables(&self) -> u32
        ensures { result ≡ enables_of_interrupts self.now }
    {
        let word = self.pair(Bit::ValidEnabled, Bit::FaultEnabled);
        let word = with_bit(word, 20, self.shared.timer_interrupt.enabled);
        with_bit(word, 31, self.shared.clear_on_read)
    }

    /// EDGE STA: whether any input has a pending edge.
    fn any_edge(&self) -> bool
        ensures { result ≡ has_edge self.now.channels }
    {
        self.pair(Bit::RisingPending, Bit::FallingPending) != 0
    }

    /// Interrupt Status.
    pub(crate) fn interrupt_status(&self) -> u32
        ensures { result ≡ status_of_interrupts self.now }
    {
        let word = self.pair(Bit::ValidPending, Bit::FaultPending);
        let word = with_bit(word, 20, self.shared.timer_interrupt.pending);
        with_bit(word, 21, self.any_edge())
    }

    /// Test.
    fn test_word(&self) -> u32
        ensures { result ≡ word_of_test self.now.channels }
    {
        let word = gather(&self.channels, Share::Lines);
        with_field(
            word,
            24,
            8,
            gather(&self.channels, Share::Single(Bit::TestOutput)),
        )
    }

    /// The shared register at an offset as it reads; others read 0.
    pub(crate) fn register(&self, offset: u32) -> u32
        ensures { result ≡ register_word offset self.now }
    {
        match offset {
            0x000 => self.control_word(),
            0x008 => self.snapshot_status() as u32,
            0x150 => gather(&self.channels, Share::Single(Bit::Input)),
            0x154 => self.debounce_word(),
            0x160 => self.shared.enables_word(),
            0x164 => gather(&self.channels, Share::Single(Bit::Output)),
            0x168 => u32::from(self.driven_outputs()),
            0x170 => self.shared.timer.control_word(),
            0x174 => self.shared.timer.preload,
            0x178 => self.shared.timer.left,
            0x180 => self.interrupt_enables(),
            0x184 => self.pair(Bit::RisingEnabled, Bit::FallingEnabled),
            0x188 => self.interrupt_status(),
            0x18C => self.pair(Bit::RisingPending, Bit::FallingPending),
            0x1F0 => self.test_word(),
            0x1F4 => 0x0200_0000,
            0x1F8 => self.shared.scratchpad,
            0x1FC => 0x0100_0000,
            _ => 0,
        }
    }
}
