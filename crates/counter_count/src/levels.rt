//! The filtered levels of a channel's three lines.
ghost use Rattle.std.specs.Prelude.{◌≡◌};
ghost use Rattle.counter_count.specs.Steps.{change_through, differ, rises, seen_through};

use counter_control::control::Control;

/// A and B count, I is the index.
#[derive(Clone, Copy)]
pub struct Levels {
    pub a: bool,
    pub b: bool,
    pub i: bool,
}

impl Levels {
    /// The levels through the polarity bits.
    pub fn seen_by(self, control: &Control) -> Levels
        ensures { result ≡ seen_through control.now self }
    {
        Levels {
            a: self.a != control.invert_a,
            b: self.b != control.invert_b,
            i: self.i != control.invert_i,
        }
    }
}

/// The levels before a tick and after it.
#[derive(Clone, Copy)]
pub struct Change {
    pub before: Levels,
    pub after: Levels,
}

impl Change {
    /// The change through the polarity bits.
    pub fn seen_by(self, control: &Control) -> Change
        ensures { result ≡ change_through control.now self }
    {
        Change {
            before: self.before.seen_by(control),
            after: self.after.seen_by(control),
        }
    }

    // A and B each by a question of its own: every step tells them apart.
    pub(crate) fn a_moved(self) -> bool
        ensures { result ≡ differ self.before.a self.after.a }
    {
        self.before.a != self.after.a
    }

    pub(crate) fn b_moved(self) -> bool
        ensures { result ≡ differ self.before.b self.after.b }
    {
        self.before.b != self.after.b
    }

    pub(crate) fn a_rose(self) -> bool
        ensures { result ≡ rises self.before.a self.after.a }
    {
        !self.before.a && self.after.a
    }

    pub(crate) fn b_rose(self) -> bool
        ensures { result ≡ rises self.before.b self.after.b }
    {
        !self.before.b && self.after.b
    }

    /// I went from 0 to 1.
    pub fn i_rose(self) -> bool
        ensures { result ≡ rises self.before.i self.after.i }
    {
        !self.before.i && self.after.i
    }

    /// I went from 1 to 0.
    pub fn i_fell(self) -> bool
        ensures { result ≡ rises self.after.i self.before.i }
    {
        self.before.i && !self.after.i
    }
}
