//! The clock answers of a tick, given to a field's sensors.
ghost use Rattle.std.specs.Prelude.{◌≡◌};
ghost use Rattle.rig_parts.specs.Clocks.{OwnClock, clocked};

use bits::flag;
use field::field::{CHANNELS, Field};

/// Advances each sensor by its channel's bit of the clock answers.
#[tactic(auto, using(crate::proofs::ClockLaws::clocked_none, crate::proofs::ClockLaws::clocked_more, crate::proofs::ClockLaws::own_clock))]
pub fn advance_all<F: Field>(field: &mut F, clocks: u8)
    ensures after { F.Field.wired field.new ≡ clocked (F.Field.wired field.old) clocks }
    ensures own { OwnClock }
{
    // channels go by number: a field is no list that could be iterated
    for k in 0..CHANNELS {
        field.advance(k, flag(u32::from(clocks), k));
    }
}
