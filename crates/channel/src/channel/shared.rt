//! A channel's share of the shared registers: what a write asks of it, and what it shows there.
ghost use Rattle.std.specs.Prelude.{◌≡◌, ◌+◌, ◌^◌, ◌<◌, ◌≤◌};
ghost use Rattle.bits.specs.Words.{word_flag};
ghost use Rattle.parts.specs.Interrupts.{acknowledged, enabled_to};
ghost use Rattle.channel.specs.Shares.{bit_of, clock_level, controlled, word_of_lines, loaded_by, word_of_mode, performed, share_of, width_of};

use super::Channel;
use crate::act::{Act, Bit, Share};
use crate::mode::Mode;
use bits::{field, flag, with_bit};
use parts::interrupt::Interrupt;

/// Enables or disables two interrupts by the channel's bits in the lowest byte of a word and the next.
fn enable_pair(low: &mut Interrupt, high: &mut Interrupt, word: u32, k: u32)
    requires { k < 8 }
    ensures low { low.new ≡ enabled_to (word_flag word k) low.old }
    ensures high { high.new ≡ enabled_to (word_flag word (8 + k)) high.old }
{
    low.enable(flag(word, k));
    high.enable(flag(word, 8 + k));
}

/// Acknowledges two interrupts by the same bits.
// Beside `enable_pair` and not with it in one: what they do to an interrupt is another act.
fn acknowledge_pair(low: &mut Interrupt, high: &mut Interrupt, word: u32, k: u32)
    requires { k < 8 }
    ensures low { low.new ≡ acknowledged (word_flag word k) low.old }
    ensures high { high.new ≡ acknowledged (word_flag word (8 + k)) high.old }
{
    low.acknowledge(flag(word, k));
    high.acknowledge(flag(word, 8 + k));
}

impl Channel {
    fn control(&mut self, mode: u32, snapshot: bool)
        ensures { self.new ≡ controlled mode snapshot self.old }
    {
        self.write_mode(mode);
        self.snapshot.enable(snapshot);
    }

    /// LCNT, which only Counter Mode heeds.
    fn load(&mut self, one: bool)
        ensures { self.new ≡ loaded_by one self.old }
    {
        if one && self.in_counter_mode() {
            let matched = self.counter.load_preload();
            self.valid.raise(matched);
        }
    }

    /// What a write of a shared register asks of the channel at place `k`.
    // A number and no type for a place: only the table's loops make it, from an index, and that type would ask the same there.
    #[tactic(auto, unfolding(crate::specs::Shares::performed))]
    pub fn perform(&mut self, act: Act, k: u32)
        requires { k < 8 }
        ensures { self.new ≡ performed act k self.old }
    {
        match act {
            Act::Control { word } => self.control(field(word, 2 * k, 2), flag(word, 16 + k)),
            Act::Load { word } => self.load(flag(word, k)),
            Act::ClearSnapshot => self.snapshot.clear(),
            Act::Snapshot => self.trigger(),
            Act::DebounceInput { word, period } => self.input.debounce(flag(word, 24 + k), period),
            Act::Output { word } => self.output = flag(word, k),
            Act::EnableInterrupts { word } => {
                enable_pair(&mut self.valid, &mut self.fault, word, k)
            }
            Act::AcknowledgeInterrupts { word } => {
                acknowledge_pair(&mut self.valid, &mut self.fault, word, k)
            }
            Act::EnableEdges { word } => {
                enable_pair(&mut self.input.rising, &mut self.input.falling, word, k)
            }
            Act::AcknowledgeEdges { word } => {
                acknowledge_pair(&mut self.input.rising, &mut self.input.falling, word, k)
            }
            Act::TestOutput { word } => self.test_output = flag(word, 24 + k),
        }
    }

    fn mode_word(&self) -> u32
        ensures answer { result ≡ word_of_mode self.now }
        ensures below { result < 2 ^ 2 }
    {
        match self.mode {
            Mode::Off(code) => code as u32,
            Mode::Ssi(_) => 1,
            Mode::Counter => 2,
        }
    }

    fn lines_word(&self) -> u32
        ensures answer { result ≡ word_of_lines self.now }
        ensures below { result < 2 ^ 3 }
    {
        let word = with_bit(0, 0, self.lines.a.level);
        let word = with_bit(word, 1, self.lines.b.level);
        with_bit(word, 2, self.lines.i.level)
    }

    /// The level of the SSI clock, idle 1.
    fn clock(&self) -> bool
        ensures { result ≡ clock_level self.now }
    {
        match &self.mode {
            Mode::Ssi(phase) => phase.clock(),
            _ => true,
        }
    }

    /// A bit of the channel.
    #[tactic(auto, unfolding(crate::specs::Shares::bit_of))]
    pub fn bit(&self, bit: Bit) -> bool
        ensures { result ≡ bit_of bit self.now }
    {
        match bit {
            Bit::SnapshotEnabled => self.snapshot.enabled,
            Bit::Collecting => self.snapshot.collecting(),
            Bit::Unread => self.snapshot.unread(),
            Bit::Input => self.input.samples.level,
            Bit::InputDebounced => self.input.debounced,
            Bit::Output => self.output,
            Bit::ValidEnabled => self.valid.enabled,
            Bit::ValidPending => self.valid.pending,
            Bit::FaultEnabled => self.fault.enabled,
            Bit::FaultPending => self.fault.pending,
            Bit::RisingEnabled => self.input.rising.enabled,
            Bit::RisingPending => self.input.rising.pending,
            Bit::FallingEnabled => self.input.falling.enabled,
            Bit::FallingPending => self.input.falling.pending,
            Bit::TestOutput => self.test_output,
            Bit::Clock => self.clock(),
        }
    }

    /// The channel's share of a shared word.
    #[tactic(auto, unfolding(crate::specs::Shares::share_of))]
    pub fn share(&self, share: Share) -> u32
        ensures answer { result ≡ share_of share self.now }
        ensures below { result < 2 ^ width_of share }
    {
        match share {
            Share::Mode => self.mode_word(),
            Share::Lines => self.lines_word(),
            Share::Single(bit) => with_bit(0, 0, self.bit(bit)),
        }
    }
}

impl Share {
    /// How many bits each channel has.
    pub fn width(self) -> u32
        ensures answer { result ≡ width_of self }
        ensures most { result ≤ 3 }
    {
        match self {
            Share::Mode => 2,
            Share::Lines => 3,
            Share::Single(_) => 1,
        }
    }
}
