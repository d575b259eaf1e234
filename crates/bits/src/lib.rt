//! Bits and bit fields of register words, taken out and put in.
#![tactic(auto)]

ghost use Rattle.std.specs.Prelude.{◌≡◌, ℕ, ◌+◌, ◌*◌, ◌^◌, ◌<◌, ◌≤◌};
ghost use Rattle.bits.specs.Words.{bit_at, field_at, word_field, word_flag};

/// A word whose bits are looked at.
// No Into<u64>, of which a clause cannot name the one number that it gives.
pub trait Word {
    ghost value: { Self → ℕ };

    /// The same number in 64 bits.
    fn widen(self) -> u64
        ensures { result ≡ value self };
}

impl Word for u32 {
    ghost value = { λ w. w };

    fn widen(self) -> u64 {
        u64::from(self)
    }
}

impl Word for u64 {
    ghost value = { λ w. w };

    fn widen(self) -> u64 {
        self
    }
}

/// What a field of a register sets by its number.
pub trait Setting {
    /// How many bits the field has.
    const WIDTH: u32;

    ghost WIDTH: { ℕ };

    ghost named: { ℕ → Self };

    ghost number_of: { Self → ℕ };

    /// What a number sets. A number that the field cannot hold sets what its highest number does, or any.
    fn from_number(number: u32) -> Self
        ensures { result ≡ named number };

    /// The number that sets this.
    fn number(self) -> u32
        ensures answer { result ≡ number_of self }
        ensures below { result < 2 ^ WIDTH };

    /// A number is read as what was written by it.
    ghost reads_back: { (s : Self) → named (number_of s) ≡ s };
}

/// The field of `width` bits whose lowest is bit `low`.
// Places and widths are numerals of the register map at almost every call, so no type for them is plainer than these bounds.
pub fn field<W: Word>(word: W, low: u32, width: u32) -> u32
    requires low { low < 64 }
    requires width { width ≤ 32 }
    ensures { result ≡ word_field (W.value word) low width }
{
    (word.widen() >> low & ((1 << width) - 1)) as u32
}

/// The bit at a place.
pub fn flag<W: Word>(word: W, place: u32) -> bool
    requires { place < 64 }
    ensures { result ≡ word_flag (W.value word) place }
{
    field(word, place, 1) == 1
}

/// What the field whose lowest bit is bit `low` sets.
pub fn setting_at<S: Setting>(word: u32, low: u32) -> S
    requires low { low < 32 }
    requires width { S.WIDTH < 32 }
    ensures { result ≡ S.named (word_field word low S.WIDTH) }
{
    S::from_number(field(word, low, S::WIDTH))
}

/// A word that ends below a place, with a field put there.
// No type that keeps where a word ends: each step would ask for a place from there on, as `below` does now.
pub fn with_field(word: u32, low: u32, width: u32, value: u32) -> u32
    requires room { low + width ≤ 32 }
    requires width { width < 32 }
    requires low { low < 32 }
    requires below { word < 2 ^ low }
    requires value { value < 2 ^ width }
    ensures answer { result ≡ word + field_at low value }
    ensures below { result < 2 ^ (low + width) }
{
    word | value << low
}

/// A word that ends below a place, with a bit put there.
pub fn with_bit(word: u32, place: u32, bit: bool) -> u32
    requires place { place < 32 }
    requires below { word < 2 ^ place }
    ensures answer { result ≡ word + bit_at place bit }
    ensures below { result < 2 ^ (place + 1) }
{
    if bit {
        with_field(word, place, 1, 1)
    } else {
        word
    }
}

/// A word that ends below a place, with the number of a setting put there.
pub fn with_setting<S: Setting>(word: u32, low: u32, setting: S) -> u32
    requires room { low + S.WIDTH ≤ 32 }
    requires width { S.WIDTH < 32 }
    requires low { low < 32 }
    requires below { word < 2 ^ low }
    ensures answer { result ≡ word + field_at low (S.number_of setting) }
    ensures below { result < 2 ^ (low + S.WIDTH) }
{
    with_field(word, low, S::WIDTH, setting.number())
}
