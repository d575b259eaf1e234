//! The levels of a field's sensors on the lines of a tick.
ghost use Rattle.std.specs.Prelude.{◌≡◌, ◌+◌, ◌*◌, ◌<◌};
ghost use Rattle.rig_parts.specs.Lines.{CarriesLevels, composed, with_bit, with_level};

use field::field::{CHANNELS, Field};

/// A word with the bit at a place made a level.
// Not `bits::with_bit`, which puts a bit on a word that ends below it: here the place has a level already.
fn put_bit(word: u32, place: u32, level: bool) -> u32
    requires { place < 32 }
    ensures { result ≡ with_bit word place level }
{
    let mask = 1 << place;
    if level {
        word | mask
    } else {
        (word | mask) ^ mask
    }
}

/// The lines with a sensor's level, if there is one, on a channel's IN1.
fn put_level(lines: u32, channel: u32, level: Option<bool>) -> u32
    requires { channel < 8 }
    ensures { result ≡ with_level lines channel level }
{
    level.map_or(lines, |shown| put_bit(lines, 3 * channel + 1, shown))
}

/// The lines of a tick with each sensor's level on its channel's IN1.
#[tactic(auto, using(crate::proofs::LineLaws::composed_none, crate::proofs::LineLaws::composed_more))]
pub fn compose<F: Field>(field: &F, lines: u32) -> u32
    ensures answer { result ≡ composed (F.Field.wired field.now) 8 lines }
    ensures levels { CarriesLevels (F.Field.wired field.now) lines result }
{
    let mut all = lines;
    // channels go by number: a field is no list that could be iterated
    for k in 0..CHANNELS {
        all = put_level(all, k, field.level(k));
    }
    all
}
