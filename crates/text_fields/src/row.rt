// Rows: lines of numbers. Each number but the last is ended by a comma, the last by byte 10.
ghost use Rattle.std.specs.Prelude.{◌≡◌};
ghost use Rattle.text_rules.specs.Fields.{read_fields};
ghost use Rattle.text_fields.specs.Parts.{RowRead, found_fields};

use crate::ends::end_before;
use crate::field::read_field;
use crate::number::read_number;

// Whether a text begins with a line of so many fields.
pub fn has_fields(text: &[u8], fields: usize) -> bool
    ensures { result ≡ found_fields (read_fields fields text.now) }
{
    let mut rest = text;
    for left in (0..fields).rev() {
        let Some(field) = read_field(rest, end_before(b',', b'\n', left)) else {
            return false;
        };
        rest = field.rest;
    }
    true
}

// Reads a row of as many numbers as the lent list has, and hands back the text after it. After a malformed one the numbers before it stand in the list, and past them what stood there. Built into its callers, which know how many numbers a row has: without that reading 1,000 positions takes up to half as long again.
#[inline(always)]
pub fn read_row<'a>(text: &'a [u8], row: &mut [u32]) -> Option<&'a [u8]>
    ensures { RowRead text.now row.old row.new result }
{
    let mut rest = text;
    let fields = row.len();
    for (i, place) in row.iter_mut().enumerate() {
        let end = end_before(b',', b'\n', fields - 1 - i);
        let number = read_number(rest, end)?;
        *place = number.found;
        rest = number.rest;
    }
    Some(rest)
}
