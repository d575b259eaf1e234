//! A hall survey on a rig: a rail counted in quadrature, a turntable read by SSI, and a snapshot of both at each seat.
#![tactic(auto)]

use card::Card;
use field::empty::EmptyField;
use field::field::Field;
use field::plug::Plug;
use field::plug_field::plug;
use frame::format::{Code, Format, Parity, Span};
use refusal::Refusal;
use rig::ticks::rig_tick;
use sensor::constants::Constants;
use sensor::gray::GraySensor;
use sensor::refusal::FieldRefusal;
use sensor::sensor::Sensor;
use std::io;

/// Where the microphone stands for one seat: steps along the rail, and the turntable's position.
struct Seat {
    number: u32,
    rail: u32,
    turntable: u32,
}

static SEATS: [Seat; 4] = [
    Seat {
        number: 1,
        rail: 40,
        turntable: 1000,
    },
    Seat {
        number: 2,
        rail: 125,
        turntable: 4095,
    },
    Seat {
        number: 3,
        rail: 90,
        turntable: 0,
    },
    Seat {
        number: 4,
        rail: 0,
        turntable: 2731,
    },
];

/// The card, the turntable on its channel 1, and where the carriage stands on the rail of channel 0.
#[derive(Drop)]
struct Hall {
    card: Card,
    field: Plug<GraySensor, EmptyField>,
    carriage: u32,
}

/// What the card delivered for a seat.
#[derive(Clone, Copy)]
struct Delivered {
    rail: u32,
    turntable: u32,
}

// 12 data bits in Gray code, one extra bit, odd parity over all.
fn turntable() -> Constants {
    let format = Format {
        data_bits: 12,
        extra_bits: 1,
        parity: Some(Parity {
            span: Span::Both,
            odd: true,
        }),
        code: Code::Gray,
    };
    Constants {
        format,
        extra: 1,
        recovery: 1500,
    }
}

fn wire() -> Result<Plug<GraySensor, EmptyField>, FieldRefusal> {
    Ok(plug(1, GraySensor::new(turntable())?, EmptyField)?)
}

impl Hall {
    // Channel 0 counts four steps a cycle; channel 1 reads frames as the turntable sends them, at 1 MHz; both take part in snapshots.
    fn set_up(&mut self) -> Result<(), Refusal> {
        self.card.write(0x018, 0x0000_0007)?;
        self.card.write(0x038, 0x00F2_B3E8)?;
        self.card.write(0x000, 0x0003_0006)
    }

    // A and B of the rail's encoder, in the order 00, 10, 11, 01.
    fn rail_lines(&self) -> u32 {
        match self.carriage % 4 {
            0 => 0b00,
            1 => 0b01,
            2 => 0b11,
            _ => 0b10,
        }
    }

    fn tick(&mut self) {
        let lines = self.rail_lines();
        let _ = rig_tick(&mut self.card, &mut self.field, lines, 0);
    }

    // Long enough for the filters to see every step.
    fn hold(&mut self) {
        for _ in 0..12u32 {
            self.tick();
        }
    }

    fn move_carriage(&mut self, target: u32) {
        for step in self.carriage..target {
            self.carriage = step + 1;
            self.hold();
        }
        for step in (target..self.carriage).rev() {
            self.carriage = step;
            self.hold();
        }
    }

    // A snapshot is done when MCR STA tells that words wait to be read.
    fn take_snapshot(&mut self) -> Result<(), Refusal> {
        self.card.write(0x004, 0x0000_0100)?;
        for _ in 0..10_000u32 {
            self.tick();
            if self.card.read(0x008)? % 4 == 2 {
                return Ok(());
            }
        }
        Ok(())
    }

    fn measure(&mut self) -> Result<Delivered, Refusal> {
        self.take_snapshot()?;
        Ok(Delivered {
            rail: self.card.read(0x190)?,
            turntable: self.card.read(0x194)?,
        })
    }

    // Let the turntable's sensor recover before the next frame.
    fn rest(&mut self) {
        for _ in 0..300u32 {
            self.hold();
        }
    }
}

// `main` tells refusals as it tells a failed write. None comes: settings, positions and offsets are in range.
fn access_refused(_: Refusal) -> io::Error {
    io::Error::other("the card refuses an access")
}

fn field_refused(_: FieldRefusal) -> io::Error {
    io::Error::other("the field refuses the turntable or its position")
}

fn main(rt: HostRuntime) -> io::Result<()> {
    let mut hall = Hall {
        card: Card::power_on(),
        field: wire().map_err(field_refused)?,
        carriage: 0,
    };
    hall.set_up().map_err(access_refused)?;
    for seat in SEATS.iter() {
        hall.move_carriage(seat.rail);
        hall.field.turn(1, seat.turntable).map_err(field_refused)?;
        let Delivered { rail, turntable } = hall.measure().map_err(access_refused)?;
        println!(rt;
            "seat {}: rail set {} delivered {rail}, turntable set {} delivered {turntable}",
            seat.number, seat.rail, seat.turntable
        )?;
        hall.rest();
    }
    Ok(())
}
