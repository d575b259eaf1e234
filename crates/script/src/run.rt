// A script on a card, line by line.
ghost use Rattle.std.specs.Prelude.{◌≡◌, length};
ghost use Rattle.text.specs.declared.command.Command.TheVariants.{Read};
ghost use Rattle.script.specs.Cursor.{left};
ghost use Rattle.script.specs.Runs.{performed, fitting, ticked, line_ran, script_ran, script_on, run_of, output_of, Ran, RanAll};

use crate::output::{Output, READ_LINE, read_line};
use card::Card;
use text::{Command, Fault, Reader, parse_line};

/// How a run ended: the lines run, the bytes written, and what stopped it.
#[derive(Clone, Copy, Debug, PartialEq, Eq)]
pub struct Run {
    pub lines: u32,
    pub bytes: usize,
    pub stopped: Option<Fault>,
}

/// The longest script that is run, in bytes.
pub const MAX_SCRIPT: usize = 65_536;

// So many ticks with the same levels; a script does not see what they answer.
fn tick_many(card: &mut Card, count: u32, lines: u32, inputs: u8)
    ensures { card.new ≡ ticked count lines inputs card.old }
{
    for _ in 0..count {
        card.tick(lines, inputs);
    }
}

// A run under way: the card, and the lines that were run. The output stands beside it, since of a reference in a struct
// within a struct a caller's proof learns nothing.
#[derive(Drop)]
struct Runner {
    card: Card,
    lines: u32,
}

impl Runner {
    // Reads a register and writes its line. A read may alter the card, so room is looked at first; where there is none,
    // the card is only asked whether it would refuse, since its refusal comes before a full output.
    fn read(&mut self, offset: u32, output: &mut Output) -> Result<(), Fault>
        ensures { Ran (fitting (length (left output.old)) (performed (Read offset) self.old.card)) result self.old self.new output.old output.new }
    {
        if output.room() < READ_LINE {
            self.card.read_refused(offset)?;
            return Err(Fault::Full);
        }
        let value = self.card.read(offset)?;
        let line = read_line(offset, value);
        output.put(&line);
        Ok(())
    }

    // Runs one line.
    fn run_line(&mut self, line: &[u8], output: &mut Output) -> Result<(), Fault>
        ensures { Ran (line_ran line.now self.old.card (length (left output.old))) result self.old self.new output.old output.new }
    {
        match parse_line(line)? {
            Command::Read { offset } => self.read(offset, output)?,
            Command::Write { offset, value } => self.card.write(offset, value)?,
            Command::Tick {
                count,
                lines,
                inputs,
            } => tick_many(&mut self.card, count, lines, inputs),
        }
        Ok(())
    }

    // Runs a script, up to the first line that is refused.
    fn run(&mut self, script: &[u8], output: &mut Output) -> Result<(), Fault>
        requires { self.old.lines ≡ 0 }
        ensures { RanAll (script_on script.now self.old.card (length (left output.old))) result self.old self.new output.old output.new }
    {
        if script.len() > MAX_SCRIPT {
            return Err(Fault::Length);
        }
        let mut reader = Reader::new(script);
        while let Some(line) = reader.line() {
            self.run_line(line, output)?;
            self.lines += 1;
        }
        Ok(())
    }
}

/// Runs a script on a new card, up to the first line that is refused. What the lines write stands at the front of `out`, and
/// the bytes after it are left as they were.
pub fn run_script(script: &[u8], out: &mut [u8]) -> Run
    ensures answer { result ≡ run_of (script_ran script.now (length out.old)) }
    ensures output { out.new ≡ output_of (script_ran script.now (length out.old)) out.old }
{
    let mut output = Output::new(out);
    let mut runner = Runner {
        card: Card::power_on(),
        lines: 0,
    };
    let stopped = runner.run(script, &mut output).err();
    Run {
        lines: runner.lines,
        bytes: output.len(),
        stopped,
    }
}
