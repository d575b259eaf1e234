//! Lists of calls on a new card beside a field, and the laws that hold over every such list.
#![tactic(auto)]

ghost use Rattle.std.specs.Prelude.{◌≡◌, ◌++◌, length, take, drop};
ghost use Rattle.rig.specs.Benches.{answers_on, bench, new_bench, run_on};
ghost use Rattle.delivered.specs.Delivery.{Delivers};
ghost use Rattle.rig_runs.specs.Laws.{CountsOnRig};
ghost use Rattle.separate.specs.Separation.{Separate};

use card::Card;
use field::field::Field;
use rig::calls::{RigAnswer, RigCall, make_rig_call};

// Lent places and no Vec: so the call allocates nothing and cannot fail.
/// Makes calls in their order on a new card beside a field, as many as there are places for the answers, and gives back the card.
pub fn run_calls<F: Field>(field: &mut F, calls: &[RigCall], answers: &mut [RigAnswer]) -> Card
    ensures state { bench result (F.Field.wired field.new) ≡ run_on (new_bench (F.Field.wired field.old)) (take (length answers.old) calls.now) }
    ensures answers { answers.new ≡ answers_on (new_bench (F.Field.wired field.old)) (take (length answers.old) calls.now) ++ drop (length calls.now) answers.old }
    ensures counts { CountsOnRig }
    ensures delivered { Delivers }
    ensures separate { Separate }
{
    let mut card = Card::power_on();
    // By index: of what `zip` over `iter_mut` writes a proof learns nothing (tried).
    let count = calls.len().min(answers.len());
    for i in 0..count {
        answers[i] = make_rig_call(&mut card, field, calls[i]);
    }
    card
}
