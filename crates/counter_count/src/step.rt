//! The step of a tick, from the input mode and the levels through polarity.
ghost use Rattle.std.specs.Prelude.{◌≡◌};
ghost use Rattle.counter_count.specs.Steps.{clock_step, step_gated, step_of, step_towards};

use crate::levels::Change;
use counter_control::modes::{IndexMode, InputMode};

/// One up, one down, or none.
// A step is +1, −1 or 0; an Option of a direction would read Some(Direction::Up) in every arm.
#[derive(Clone, Copy, PartialEq, Eq)]
pub enum Step {
    Hold,
    Up,
    Down,
}

fn towards(up: bool) -> Step
    ensures { result ≡ step_towards up }
{
    if up { Step::Up } else { Step::Down }
}

impl Step {
    /// The step of a tick; `due` says that the clock's period ends in it.
    pub(crate) fn of(input: InputMode, due: bool, change: Change) -> Step
        ensures { result ≡ step_of input due change.before change.after }
    {
        let Change { after, .. } = change;
        match input {
            InputMode::Disabled => Step::Hold,
            InputMode::TimerUp => if due { Step::Up } else { Step::Hold },
            InputMode::TimerDown => if due { Step::Down } else { Step::Hold },
            InputMode::Direction => if change.a_rose() {
                towards(after.b)
            } else {
                Step::Hold
            },
            InputMode::UpDown => match (change.a_rose(), change.b_rose()) {
                (true, false) => Step::Up,
                (false, true) => Step::Down,
                _ => Step::Hold,
            },
            InputMode::Quadrature1 => if change.a_moved() && !change.b_moved() && !after.b {
                towards(after.a)
            } else {
                Step::Hold
            },
            InputMode::Quadrature2 => if change.a_moved() && !change.b_moved() {
                towards(after.a != after.b)
            } else {
                Step::Hold
            },
            InputMode::Quadrature4 => match (change.a_moved(), change.b_moved()) {
                (true, false) => towards(after.a != after.b),
                (false, true) => towards(after.a == after.b),
                _ => Step::Hold,
            },
        }
    }

    /// The step of a tick in which no level changes.
    // `of` gives the same there; this short way stays beside it for speed, since almost every tick is such a one.
    pub(crate) fn at_rest(input: InputMode, due: bool) -> Step
        ensures { result ≡ clock_step input due }
    {
        match (input, due) {
            (InputMode::TimerUp, true) => Step::Up,
            (InputMode::TimerDown, true) => Step::Down,
            _ => Step::Hold,
        }
    }

    /// Under Gate on I there is no step while I is 0.
    pub(crate) fn gated(self, index: IndexMode, i: bool) -> Step
        ensures { result ≡ step_gated index i self }
    {
        if index == IndexMode::Gate && !i {
            Step::Hold
        } else {
            self
        }
    }
}
