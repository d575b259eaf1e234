// The output of a run, and the line that a read writes to it.
ghost use Rattle.std.specs.Prelude.{◌≡◌, [], ◌<◌, ◌≤◌, length};
ghost use Rattle.script.specs.Output.{hex_digit_of, hex_bytes, line_of_read};

/// The bytes of a line `R,offset,value` with its byte 10.
pub(crate) const READ_LINE: usize = 15;

/// Bytes with a cursor: what is written stands before it, and what follows is as it was.
#[derive(Drop)]
pub(crate) struct Output<'a> {
    bytes: &'a mut [u8],
    at: usize,
    ghost within: { at ≤ length bytes.now },
}

impl<'a> Output<'a> {
    ghost use Rattle.script.specs.Cursor.{Written, written, left};

    /// An output with nothing written.
    pub(crate) fn new(bytes: &'a mut [u8]) -> Output<'a>
        ensures none { written result ≡ [] }
        ensures left { left result ≡ bytes.old }
        ensures same { result.bytes.ghost_name ≡ bytes.entry.ghost_name }
    {
        Output { bytes, at: 0 }
    }

    /// How many bytes are written.
    pub(crate) fn len(&self) -> usize
        ensures { result ≡ length (written self.now) }
    {
        self.at
    }

    /// How many bytes are left.
    pub(crate) fn room(&self) -> usize
        ensures { result ≡ length (left self.now) }
    {
        self.bytes.len() - self.at
    }

    /// Writes a line at the cursor.
    pub(crate) fn put(&mut self, line: &[u8])
        requires { length line.now ≤ length (left self.old) }
        ensures { Written line.now self.old self.new }
    {
        let end = self.at + line.len();
        self.bytes[self.at..end].copy_from_slice(line);
        self.at = end;
    }
}

// One of 0 to 9 and A to F.
fn hex_digit(d: u32) -> u8
    requires { d < 16 }
    ensures { result ≡ hex_digit_of d }
{
    if d < 10 {
        b'0' + d as u8
    } else {
        b'A' - 10 + d as u8
    }
}

// Fills `out` with the lowest digits of the value.
fn put_hex(out: &mut [u8], value: u32)
    ensures { out.new ≡ hex_bytes (length out.old) value }
{
    let mut rest = value;
    // By index: of the elements that `iter_mut().rev()` lends a proof learns nothing (tried).
    for i in (0..out.len()).rev() {
        out[i] = hex_digit(rest % 16);
        rest /= 16;
    }
}

/// The line that an accepted read writes.
// Digit by digit and no `write!`: three digits are promised of every offset, and `{:03X}` prints more of a larger one.
pub(crate) fn read_line(offset: u32, value: u32) -> [u8; READ_LINE]
    ensures { result ≡ line_of_read offset value }
{
    let mut line = *b"R,000,00000000\n";
    put_hex(&mut line[2..5], offset);
    put_hex(&mut line[6..14], value);
    line
}
