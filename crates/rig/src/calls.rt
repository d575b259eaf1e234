//! The calls that a host makes on a rig, and what they answer.
ghost use Rattle.std.specs.Prelude.{◌≡◌};
ghost use Rattle.rig.specs.Benches.{answer_on, bench, step_on};

use crate::ticks::rig_tick;
use card::{Card, Levels};
use field::field::Field;
use runs::{Answer, Call, make_call};
use sensor::refusal::FieldRefusal;

/// A call on a card beside a field.
#[derive(Clone, Copy)]
pub enum RigCall {
    /// A call on the card alone; a plain tick does not move the field.
    Card(Call),
    /// A tick of both.
    Tick { lines: u32, inputs: u8 },
    /// A turn of a channel's sensor.
    Turn { channel: u32, position: u32 },
}

/// What a call on a rig answers.
#[derive(Clone, Copy)]
pub enum RigAnswer {
    /// What the card answers.
    Card(Answer),
    /// A rig tick: the levels that the card drives.
    Tick(Levels),
    /// A turn: that it was done, or why it was refused.
    Turn(Result<(), FieldRefusal>),
}

/// Makes one call on a card beside a field.
pub fn make_rig_call<F: Field>(card: &mut Card, field: &mut F, call: RigCall) -> RigAnswer
    ensures answer { result ≡ answer_on (bench card.old (F.Field.wired field.old)) call }
    ensures after { bench card.new (F.Field.wired field.new) ≡ step_on (bench card.old (F.Field.wired field.old)) call }
{
    match call {
        RigCall::Card(call) => RigAnswer::Card(make_call(card, call)),
        RigCall::Tick { lines, inputs } => RigAnswer::Tick(rig_tick(card, field, lines, inputs)),
        RigCall::Turn { channel, position } => RigAnswer::Turn(field.turn(channel, position)),
    }
}
