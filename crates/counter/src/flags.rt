//! The status bits beside SGL, and the status word.
ghost use Rattle.std.specs.Prelude.{◌≡◌, ◌<◌, not, ◌&&◌};
ghost use Rattle.bits.specs.Words.{word_flag};
ghost use Rattle.counter.specs.Status.{cleared_by, flags_noted, flags_pointed, released, status_word};

use bits::{flag, with_bit};
use counter_control::modes::InputMode;
use counter_count::count::Outcome;

/// BOR, CRY, MAT, SGN, DIR, DRL and OVFL.
#[derive(Clone, Copy, Default)]
pub struct Flags {
    pub borrow: bool,
    pub carry: bool,
    pub matched: bool,
    pub sign: bool,
    pub up: bool,
    pub locked: bool,
    pub overflow: bool,
}

impl Flags {
    // the bits follow what became of the count; MAT is not among them
    pub(crate) fn note(&mut self, outcome: Outcome)
        ensures { self.new ≡ flags_noted outcome self.old }
    {
        match outcome {
            Outcome::Held | Outcome::Loaded => {}
            Outcome::Up => self.up = true,
            Outcome::Down => self.up = false,
            Outcome::Carry => {
                self.up = true;
                self.sign = true;
                self.carry = true;
            }
            Outcome::Borrow => {
                self.up = false;
                self.sign = false;
                self.borrow = true;
            }
        }
    }

    // in the direction mode DIR shows B
    pub(crate) fn point(&mut self, input: InputMode, b: bool)
        ensures { self.new ≡ flags_pointed input b self.old }
    {
        if input == InputMode::Direction {
            self.up = b;
        }
    }

    // the lock is let go; OVFL stays
    pub(crate) fn release(&mut self)
        ensures { self.new ≡ released self.old }
    {
        self.locked = false;
    }

    // written ones clear the bits that hold an occurrence
    pub(crate) fn clear(&mut self, word: u32)
        ensures { self.new ≡ cleared_by word self.old }
    {
        self.borrow &= !flag(word, 0);
        self.carry &= !flag(word, 1);
        self.matched &= !flag(word, 2);
        self.locked &= !flag(word, 5);
        self.overflow &= !flag(word, 6);
    }

    // the status word, with SGL
    pub(crate) fn word(&self, single: bool) -> u32
        ensures { result ≡ status_word single self.now }
    {
        let word = with_bit(0, 0, self.borrow);
        let word = with_bit(word, 1, self.carry);
        let word = with_bit(word, 2, self.matched);
        let word = with_bit(word, 3, self.sign);
        let word = with_bit(word, 4, self.up);
        let word = with_bit(word, 5, self.locked);
        let word = with_bit(word, 6, self.overflow);
        with_bit(word, 7, single)
    }
}
