// What is taken at the cursor: bytes up to a separator, and whole lines.
ghost use Rattle.std.specs.Prelude.{◌≡◌, length};
ghost use Rattle.text.specs.Lines.{up_to, past};
ghost use Rattle.text.specs.Cursor.{rest, line_taken};

use super::Reader;

impl<'a> Reader<'a> {
    /// A reader that stands before the first byte.
    pub fn new(bytes: &'a [u8]) -> Reader<'a>
        ensures { rest result ≡ bytes.now }
    {
        Reader { bytes, at: 0 }
    }

    // The bytes up to the next `end`, or all that are left; the cursor then stands past it.
    pub(crate) fn until(&mut self, end: u8) -> &'a [u8]
        ensures answer { result.now ≡ up_to end (rest self.old) }
        ensures after { rest self.new ≡ past end (rest self.old) }
    {
        let left = &self.bytes[self.at..];
        let n = left.iter().position(|b| *b == end).unwrap_or(left.len());
        self.at = (self.at + n + 1).min(self.bytes.len());
        &left[..n]
    }

    /// The next line without its byte 10, or none where no byte is left.
    pub fn line(&mut self) -> Option<&'a [u8]>
        ensures { line_taken (rest self.old) result (rest self.new) }
    {
        if self.at == self.bytes.len() {
            return None;
        }
        Some(self.until(b'\n'))
    }
}
