// A number as the first field of a text.
ghost use Rattle.std.specs.Prelude.{◌≡◌, true};
ghost use Rattle.text_rules.specs.Fields.{ends};
ghost use Rattle.text_fields.specs.Parts.{read_of, number_by};

use crate::Read;

// Reads the number in the first field, where the byte `end`, a comma or byte 10, ends the field.
pub fn read_number<'a>(text: &'a [u8], end: u8) -> Option<Read<'a, u32>>
    requires { ends end ≡ true }
    ensures { read_of 13 (λ found. found) result ≡ number_by end text.now }
{
    let mut n: u64 = 0;
    for (i, &byte) in text.iter().enumerate() {
        if !byte.is_ascii_digit() {
            if byte != end || i == 0 {
                return None;
            }
            // Ten digits can pass 32 bits.
            let found = u32::try_from(n).ok()?;
            let rest = &text[i + 1..];
            return Some(Read { found, rest });
        }
        // An eleventh digit, whatever the number.
        if i >= 10 {
            return None;
        }
        n = n * 10 + u64::from(byte - b'0');
    }
    None
}
