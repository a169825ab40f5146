// Puts bytes at an index of a text and hands back the index after them: a fixed line, and a number. A part of the text handed back in the place of the index would need a promise of what is lent; so each promise is one equation (`Put`).
ghost use Rattle.std.specs.Prelude.{◌+◌, ◌≤◌, length};
ghost use Rattle.text_rules.specs.Fields.{write_number};
ghost use Rattle.text_writing.specs.Parts.{Put};

use text_fields::digits::digits_of;

// Puts a fixed line.
pub fn put_line(text: &mut [u8], at: usize, line: &[u8]) -> usize
    requires { at + length line.now ≤ length text.old }
    ensures { Put line.now text.old at text.new result }
{
    let end = at + line.len();
    lists::copy(line, &mut text[at..end]);
    end
}

// Puts a number, from its last digit to its first, and the byte that ends its field. No formatter: `io::decimal` puts the digits in an array of 20, from which they would be copied, a pass more.
pub fn put_number(text: &mut [u8], at: usize, n: u32, end: u8) -> usize
    requires { at + length (write_number n end) ≤ length text.old }
    ensures { Put (write_number n end) text.old at text.new result }
{
    let digits = digits_of(n);
    let mut rest = n;
    for i in (0..digits).rev() {
        text[at + i] = b'0' + (rest % 10) as u8;
        rest /= 10;
    }
    text[at + digits] = end;
    at + digits + 1
}
