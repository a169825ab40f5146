// Numbers as fields: how long they are, and a row of them. One byte parts them, and one ends the last: in a line a comma and byte 10.
ghost use Rattle.std.specs.Prelude.{◌+◌, ◌≤◌, length};
ghost use Rattle.text_rules.specs.Rows.{write_parted};
ghost use Rattle.text_writing.specs.Parts.{Put, RowLength};

use crate::put::put_number;
use text_fields::digits::digits_of;
use text_fields::ends::end_before;

// The length of a row, whatever the bytes that part and end it.
pub fn row_length(row: &[u32]) -> usize
    requires { length row.now ≤ 1024 }
    ensures { RowLength row.now result }
{
    let digits: usize = row.iter().map(|&number| digits_of(number)).sum();
    digits + row.len()
}

// Puts a row, parted by one byte and ended by another. A table puts its rows from its columns: to gather each row first took a quarter more time.
pub fn put_row(text: &mut [u8], at: usize, row: &[u32], part: u8, end: u8) -> usize
    requires { at + length (write_parted part end row.now) ≤ length text.old }
    ensures { Put (write_parted part end row.now) text.old at text.new result }
{
    let mut next = at;
    for (i, &number) in row.iter().enumerate() {
        next = put_number(text, next, number, end_before(part, end, row.len() - i - 1));
    }
    next
}
