// Fields and fixed lines at the start of a text.
ghost use Rattle.std.specs.Prelude.{◌≡◌};
ghost use Rattle.text_rules.specs.Fields.{ends, field_by};
ghost use Rattle.text_rules.specs.Names.{after_line};
ghost use Rattle.text_fields.specs.Parts.{rest_of, read_of};

use crate::Read;

// The text after a fixed line, where it begins with that.
pub fn skip_line<'a>(text: &'a [u8], line: &[u8]) -> Option<&'a [u8]>
    ensures { rest_of 12 result ≡ after_line line.now text.now }
{
    text.strip_prefix(line)
}

// Whether a byte ends a field.
fn ends_field(byte: u8) -> bool
    ensures { result ≡ ends byte }
{
    matches!(byte, b',' | b'\n')
}

// Reads the first field, where the byte `end` ends it.
pub fn read_field<'a>(text: &'a [u8], end: u8) -> Option<Read<'a, &'a [u8]>>
    ensures { read_of 13 (λ found. found.now) result ≡ field_by end text.now }
{
    let i = text.iter().position(|&byte| ends_field(byte))?;
    if text[i] != end {
        return None;
    }
    Some(Read {
        found: &text[..i],
        rest: &text[i + 1..],
    })
}
