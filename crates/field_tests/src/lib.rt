//! Sensors clocked on a field of two plugs: frames, turns in their midst, recovery, and refusals.
#![tactic(auto)]

#[cfg(test)]
mod tests {
    use field::empty::EmptyField;
    use field::field::Field;
    use field::plug::Plug;
    use field::plug_field::plug;
    use frame::format::{Code, Format, Parity, Span};
    use rig_parts::clocks::advance_all;
    use rig_parts::lines::compose;
    use sensor::constants::Constants;
    use sensor::gray::GraySensor;
    use sensor::number::NumberSensor;
    use sensor::refusal::FieldRefusal;
    use sensor::sensor::Sensor;
    use std::test::Fail;

    // Four data bits in Gray code, no parity.
    fn disc() -> Constants {
        let format = Format {
            data_bits: 4,
            extra_bits: 0,
            parity: None,
            code: Code::Gray,
        };
        Constants {
            format,
            extra: 0,
            recovery: 1000,
        }
    }

    // Eight data bits, two extra bits and even parity over both.
    fn rail() -> Constants {
        let format = Format {
            data_bits: 8,
            extra_bits: 2,
            parity: Some(Parity {
                span: Span::Both,
                odd: false,
            }),
            code: Code::Binary,
        };
        Constants {
            format,
            extra: 2,
            recovery: 1000,
        }
    }

    // A disc at channel 5 over a rail at channel 2.
    fn bench() -> Result<Plug<GraySensor, Plug<NumberSensor, EmptyField>>, FieldRefusal> {
        let rails = plug(2, NumberSensor::new(rail())?, EmptyField)?;
        Ok(plug(5, GraySensor::new(disc())?, rails)?)
    }

    // What a plug of a disc at a channel answers.
    fn plug_disc(channel: u32) -> Result<(), FieldRefusal> {
        plug(channel, GraySensor::new(disc())?, EmptyField)?;
        Ok(())
    }

    // The next bits of a channel, clocked in alone or with the other channels; none where it has no sensor.
    fn next_bits<F: Field>(field: &mut F, channel: u32, clocks: u8, bits: u32) -> Option<u64> {
        let mut word = 0;
        for _ in 0..bits {
            advance_all(field, 0xFF);
            word = word << 1 | u64::from(field.level(channel)?);
            advance_all(field, clocks);
        }
        Some(word)
    }

    #[test]
    fn frames(rt: HostRuntime) -> Result<(), Fail> {
        let mut field = bench()?;
        assert_eq!(rt; field.turn(5, 9), Ok(()));
        assert_eq!(rt; field.turn(2, 200), Ok(()));
        // IN1 of channels 2 and 5 are bits 7 and 16
        assert_eq!(rt; compose(&field, 0), 0x10080);
        advance_all(&mut field, 0xDF);
        assert_eq!(rt; field.turn(5, 6), Ok(()));
        // the Gray word of 9, which it had at the first fall; the rail has seen no fall
        assert_eq!(rt; next_bits(&mut field, 5, 0xDF, 4), Some(0b1101));
        assert_eq!(rt; compose(&field, 0xFFFFFF), 0xFFFFFF);
        // the fifth rise: low for 1,000 ticks
        advance_all(&mut field, 0xFF);
        for _ in 0..1000u32 {
            assert_eq!(rt; compose(&field, 0xFFFFFF), 0xFEFFFF);
            advance_all(&mut field, 0xFF);
        }
        assert_eq!(rt; compose(&field, 0), 0x10080);
        // the rail: 11001000, extra 10, four ones and an even parity bit
        advance_all(&mut field, 0xFB);
        assert_eq!(rt; next_bits(&mut field, 2, 0xFB, 11), Some(0b11001000_10_0));
        Ok(())
    }

    #[test]
    fn refusals(rt: HostRuntime) -> Result<(), Fail> {
        let mut field = bench()?;
        assert_eq!(rt; field.turn(5, 16), Err(FieldRefusal::Value));
        assert_eq!(rt; field.turn(4, 16), Err(FieldRefusal::Channel));
        assert_eq!(rt; field.turn(8, 4_000_000_000), Err(FieldRefusal::Channel));
        assert!(rt; field.level(4).is_none());
        assert_eq!(rt; plug_disc(8), Err(FieldRefusal::Channel));
        assert_eq!(rt; plug_disc(7), Ok(()));
        assert_eq!(rt; FieldRefusal::Channel.code(), 3);
        assert_eq!(rt; FieldRefusal::Value.code(), 4);
        Ok(())
    }
}
