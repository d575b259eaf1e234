//! The laws of sensors: what every sensor sends, whatever its kind.
ghost use Rattle.sensor.specs.Sending.{NineIsSent, Recovers, SendsFrame, SentIsRead};

/// A sensor sends the frame of the position that it has when its clock first falls, and recovers after it;
/// what it sends is read back as that position.
pub fn sensors_send_frames()
    ensures sends { SendsFrame }
    ensures recovers { Recovers }
    ensures read { SentIsRead }
    ensures nine { NineIsSent }
{}
