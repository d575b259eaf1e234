//! A sensor over a field.
ghost use Rattle.std.specs.Prelude.{◌<◌};

/// A sensor at a channel, over a field: it hides what the field has there.
#[derive(Drop)]
pub struct Plug<S, F> {
    pub(crate) channel: u32,
    pub(crate) sensor: S,
    pub(crate) below: F,
    ghost within: { channel < 8 },
}
