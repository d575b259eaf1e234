//! The laws of fields.
ghost use Rattle.field.specs.OwnSensor.{OwnSensor};

/// Whatever is done at any channels, a sensor is where the acts at its own channel took it.
pub fn channels_are_apart()
    ensures own { OwnSensor }
{}
