//! The rig's tick: the sensors' levels on the lines, a card tick, and the sensors advanced by its clock answers.
ghost use Rattle.std.specs.Prelude.{◌≡◌};
ghost use Rattle.card.specs.Calls.{tick_done, tick_levels};
ghost use Rattle.rig_parts.specs.Clocks.{clocked};
ghost use Rattle.rig_parts.specs.Lines.{composed};

use card::{Card, Levels};
use field::field::Field;
use rig_parts::clocks::advance_all;
use rig_parts::lines::compose;

/// One tick of a card and of the sensors on its channels' IN1.
// Two references and no struct of both: `run_calls` makes a card of its own beside a field that its caller keeps.
pub fn rig_tick<F: Field>(card: &mut Card, field: &mut F, lines: u32, inputs: u8) -> Levels
    ensures answer { result ≡ tick_levels (composed (F.Field.wired field.old) 8 lines) inputs card.old }
    ensures card { card.new ≡ tick_done (composed (F.Field.wired field.old) 8 lines) inputs card.old }
    ensures field { F.Field.wired field.new ≡ clocked (F.Field.wired field.old) result.clocks }
{
    let all = compose(field, lines);
    let levels = card.tick(all, inputs);
    advance_all(field, levels.clocks);
    levels
}
