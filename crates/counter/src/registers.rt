//! What hosts write to and read from a counter.
ghost use Rattle.std.specs.Prelude.{◌≡◌};
ghost use Rattle.bits.specs.Words.{word_flag};
ghost use Rattle.counter_control.specs.Words.{word_of_control};
ghost use Rattle.counter.specs.Registers.{command_matches, commanded, compare_written, configured, control_answer, control_written, data_read, data_word, entered, left, preload_loaded, preload_matches, preload_written, status_cleared, status_shown};

use crate::counter::Counter;
use bits::flag;
use counter_control::control::Control;
use counter_control::modes::IndexMode;
use counter_count::count::Outcome;
use refusal::Refusal;

impl Counter {
    // new settings; the lock is let go where they leave Latch on I
    fn configure(&mut self, control: Control)
        ensures { self.new ≡ configured control self.old }
    {
        if self.count.control.index == IndexMode::Latch && control.index != IndexMode::Latch {
            self.flags.release();
        }
        self.count.configure(control);
    }

    /// A Counter Mode Control write; a refused one leaves the counter as it was.
    #[tactic(auto, unfolding(crate::specs::Registers::control_written, crate::specs::Registers::control_answer))]
    pub fn write_control(&mut self, word: u32) -> Result<(), Refusal>
        ensures answer { result ≡ control_answer word }
        ensures after { self.new ≡ control_written word self.old }
    {
        let control = Control::try_from(word)?;
        self.configure(control);
        Ok(())
    }

    /// The Counter Mode Control word.
    pub fn control_word(&self) -> u32
        ensures { result ≡ word_of_control self.now.count.control }
    {
        u32::from(self.count.control)
    }

    /// The Counter Mode Status word.
    #[tactic(auto, unfolding(crate::specs::Registers::status_shown))]
    pub fn status_word(&self) -> u32
        ensures { result ≡ status_shown self.now }
    {
        self.flags.word(self.count.single)
    }

    /// A Counter Mode Status write: ones clear.
    #[tactic(auto, unfolding(crate::specs::Registers::status_cleared))]
    pub fn clear_status(&mut self, word: u32)
        ensures { self.new ≡ status_cleared word self.old }
    {
        self.flags.clear(word);
    }

    /// A Counter Mode Preload write.
    #[tactic(auto, unfolding(crate::specs::Registers::preload_written))]
    pub fn write_preload(&mut self, word: u32)
        ensures { self.new ≡ preload_written word self.old }
    {
        self.count.preload = word;
    }

    /// A Counter Mode Compare write: no match comes of it.
    #[tactic(auto, unfolding(crate::specs::Registers::compare_written))]
    pub fn write_compare(&mut self, word: u32)
        ensures { self.new ≡ compare_written word self.old }
    {
        self.compare = word;
    }

    /// A Counter Mode Command write in Counter Mode; says whether a load ended at compare.
    #[tactic(auto, unfolding(crate::specs::Registers::commanded, crate::specs::Registers::command_matches))]
    pub fn command(&mut self, word: u32) -> bool
        ensures answer { result ≡ command_matches word self.old }
        ensures after { self.new ≡ commanded word self.old }
    {
        if flag(word, 0) {
            self.flags.release();
        }
        let outcome = self.count.command(word);
        self.mark(outcome)
    }

    /// LCNT of the shared command register in Counter Mode; says whether the load ended at compare.
    #[tactic(auto, unfolding(crate::specs::Registers::preload_loaded, crate::specs::Registers::preload_matches))]
    pub fn load_preload(&mut self) -> bool
        ensures answer { result ≡ preload_matches self.old }
        ensures after { self.new ≡ preload_loaded self.old }
    {
        self.count.load_preload();
        self.mark(Outcome::Loaded)
    }

    /// The channel enters Counter Mode.
    #[tactic(auto, unfolding(crate::specs::Registers::entered))]
    pub fn enter(&mut self)
        ensures { self.new ≡ entered self.old }
    {
        self.count.restart();
    }

    /// The channel leaves Counter Mode.
    #[tactic(auto, unfolding(crate::specs::Registers::left))]
    pub fn leave(&mut self)
        ensures { self.new ≡ left self.old }
    {
        self.flags.release();
    }

    /// What the Data Register shows in Counter Mode.
    #[tactic(auto, unfolding(crate::specs::Registers::data_word))]
    pub fn data(&self) -> u32
        ensures { result ≡ data_word self.now }
    {
        if self.count.control.index == IndexMode::Latch {
            self.latched
        } else {
            self.count.value
        }
    }

    /// A Data Register read in Counter Mode.
    #[tactic(auto, unfolding(crate::specs::Registers::data_read))]
    pub fn read_data(&mut self) -> u32
        ensures answer { result ≡ data_word self.old }
        ensures after { self.new ≡ data_read self.old }
    {
        let word = self.data();
        self.flags.release();
        word
    }
}
