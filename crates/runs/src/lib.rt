//! Lists of calls on a card, one after the other, with every answer.
#![tactic(auto)]

ghost use Rattle.std.specs.Prelude.{◌≡◌};
ghost use Rattle.runs.specs.Runs.{answer_to, step};

use card::{Card, Levels};
use refusal::Refusal;

/// A call that a host makes on a card.
#[derive(Clone, Copy)]
pub enum Call {
    /// One tick with these levels.
    Tick { lines: u32, inputs: u8 },
    /// A register read.
    Read { offset: u32 },
    /// A register write.
    Write { offset: u32, value: u32 },
}

/// What a call answers.
#[derive(Clone, Copy)]
pub enum Answer {
    /// A tick: the levels that the card drives.
    Levels(Levels),
    /// A read: the word, or why it was refused.
    Value(Result<u32, Refusal>),
    /// A write: that it was done, or why it was refused.
    Done(Result<(), Refusal>),
}

/// Makes one call.
pub fn make_call(card: &mut Card, call: Call) -> Answer
    ensures answer { result ≡ answer_to card.old call }
    ensures after { card.new ≡ step card.old call }
{
    match call {
        Call::Tick { lines, inputs } => Answer::Levels(card.tick(lines, inputs)),
        Call::Read { offset } => Answer::Value(card.read(offset)),
        Call::Write { offset, value } => Answer::Done(card.write(offset, value)),
    }
}
