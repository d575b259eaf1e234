// A cursor over bytes that somebody else owns: they are read in place, never copied.
ghost use Rattle.std.specs.Prelude.{◌≡◌, ◌≤◌, length};

mod cursor;
mod fields;

/// Bytes with a cursor: a script that is read by lines, or a line that is read by fields.
#[derive(Drop)]
pub struct Reader<'a> {
    bytes: &'a [u8],
    at: usize,
    ghost within: { at ≤ length bytes.now },
}
