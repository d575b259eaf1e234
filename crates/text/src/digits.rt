// Numbers as a script writes them.
ghost use Rattle.std.specs.Prelude.{◌≡◌, ◌^◌, ◌<◌, ◌≤◌, length, IfSome};
ghost use Rattle.text.specs.Fields.{digit_of, number_from};

// The value of one of 0 to 9 and A to F.
fn digit(b: u8) -> Option<u32>
    ensures { result ≡ digit_of b }
{
    match b {
        b'0'..=b'9' => Some(u32::from(b - b'0')),
        b'A'..=b'F' => Some(u32::from(b - b'A') + 10),
        _ => None,
    }
}

// The number that at most eight digits give in a base of at most 16.
pub(crate) fn number(field: &[u8], base: u32) -> Option<u32>
    requires few { length field.now ≤ 8 }
    requires base { base ≤ 16 }
    ensures answer { result ≡ number_from base 0 field.now }
    ensures bound { IfSome result (λ v. v < 16 ^ length field.now) }
{
    let mut value = 0;
    for b in field {
        let d = digit(*b).filter(|d| *d < base)?;
        value = value * base + d;
    }
    Some(value)
}
