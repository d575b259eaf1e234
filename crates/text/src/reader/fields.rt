// The fields of a line, taken at a cursor over the line.
ghost use Rattle.std.specs.Prelude.{◌≡◌, ◌^◌, ◌<◌, ◌≤◌, IfOk};
ghost use Rattle.std.specs.Option.{ok_or};
ghost use Rattle.text.specs.Lines.{up_to, past};
ghost use Rattle.text.specs.Fields.{commas, letter, hex_field, count_field};
ghost use Rattle.text.specs.Cursor.{rest};
ghost use Rattle.text.specs.declared.fault.Fault.TheVariants.{Field};

use super::Reader;
use crate::digits::number;
use crate::fault::Fault;

// The most ticks that one line may ask for.
const MAX_COUNT: u32 = 100_000;

impl<'a> Reader<'a> {
    // How many commas are left: so many fields follow this one.
    pub(crate) fn more_fields(&self) -> usize
        ensures { result ≡ commas (rest self.now) }
    {
        self.bytes[self.at..]
            .iter()
            .map(|b| usize::from(*b == b','))
            .sum()
    }

    // The letter of a field of one byte; none for any other field.
    pub(crate) fn kind(&mut self) -> Option<char>
        ensures answer { result ≡ letter (up_to 44 (rest self.old)) }
        ensures after { rest self.new ≡ past 44 (rest self.old) }
    {
        match self.until(b',') {
            [b] => Some(char::from(*b)),
            _ => None,
        }
    }

    // A field of exactly `width` uppercase hexadecimal digits.
    pub(crate) fn hex(&mut self, width: usize) -> Result<u32, Fault>
        requires { width ≤ 8 }
        ensures answer { result ≡ ok_or (hex_field width (up_to 44 (rest self.old))) Field }
        ensures after { rest self.new ≡ past 44 (rest self.old) }
        ensures bound { IfOk result (λ v. v < 16 ^ width) }
    {
        let field = self.until(b',');
        if field.len() != width {
            return Err(Fault::Field);
        }
        number(field, 16).ok_or(Fault::Field)
    }

    // A count from 1 to 100,000 with no leading zero.
    pub(crate) fn count(&mut self) -> Result<u32, Fault>
        ensures answer { result ≡ ok_or (count_field (up_to 44 (rest self.old))) Field }
        ensures after { rest self.new ≡ past 44 (rest self.old) }
    {
        let field = self.until(b',');
        if matches!(field, [] | [b'0', ..]) || field.len() > 6 {
            return Err(Fault::Field);
        }
        number(field, 10)
            .filter(|n| *n <= MAX_COUNT)
            .ok_or(Fault::Field)
    }
}
