//! One interrupt: the only place where a cause meets its enable bit.
ghost use Rattle.std.specs.Prelude.{◌≡◌};
ghost use Rattle.parts.specs.Interrupts.{acknowledged, enabled_to, quiet, raised};

/// An interrupt's enable bit and its pending bit.
#[derive(Clone, Copy, Default)]
pub struct Interrupt {
    pub enabled: bool,
    pub pending: bool,
}

impl Interrupt {
    /// Neither enabled nor pending.
    pub fn power_on() -> Interrupt
        ensures { result ≡ quiet }
    {
        Interrupt::default()
    }

    /// A cause sets the pending bit only if the interrupt is enabled.
    pub fn raise(&mut self, cause: bool)
        ensures { self.new ≡ raised cause self.old }
    {
        if cause && self.enabled {
            self.pending = true;
        }
    }

    /// Disabling clears the pending bit; enabling raises nothing for causes past.
    pub fn enable(&mut self, on: bool)
        ensures { self.new ≡ enabled_to on self.old }
    {
        self.enabled = on;
        self.pending = on && self.pending;
    }

    /// A one clears the pending bit.
    pub fn acknowledge(&mut self, one: bool)
        ensures { self.new ≡ acknowledged one self.old }
    {
        if one {
            self.pending = false;
        }
    }
}
