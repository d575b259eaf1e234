// What one line of a script asks for.
ghost use Rattle.std.specs.Prelude.{◌≡◌};
ghost use Rattle.text.specs.Commands.{command_of};

use crate::fault::Fault;
use crate::reader::Reader;

/// What a line asks of the card.
#[derive(Clone, Copy)]
pub enum Command {
    /// `R,offset`: read a register and write a line with its value.
    Read { offset: u32 },
    /// `W,offset,value`: write a register.
    Write { offset: u32, value: u32 },
    /// `T,count,lines,inputs`: so many ticks with these levels.
    Tick { count: u32, lines: u32, inputs: u8 },
}

/// The command that a line writes: first its kind and number of fields are looked at, then each field.
pub fn parse_line(line: &[u8]) -> Result<Command, Fault>
    ensures { result ≡ command_of line.now }
{
    let mut fields = Reader::new(line);
    let more = fields.more_fields();
    match fields.kind() {
        Some('R') if more == 1 => {
            let offset = fields.hex(3)?;
            Ok(Command::Read { offset })
        }
        Some('T') if more == 3 => {
            let count = fields.count()?;
            let lines = fields.hex(6)?;
            let inputs = fields.hex(2)?;
            Ok(Command::Tick {
                count,
                lines,
                inputs: inputs as u8,
            })
        }
        Some('W') if more == 2 => {
            let offset = fields.hex(3)?;
            let value = fields.hex(8)?;
            Ok(Command::Write { offset, value })
        }
        _ => Err(Fault::Form),
    }
}
