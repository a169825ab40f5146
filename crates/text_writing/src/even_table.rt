// A table whose columns are judged: how long it is, and how it is put.
ghost use Rattle.std.specs.Prelude.{◌≡◌, ◌+◌, ◌<◌, ◌≤◌, length};
ghost use Rattle.text_rules.specs.Rows.{write_row, write_rows, row_of, rows_of};
ghost use Rattle.text_rules.specs.Calls.{line_count};
ghost use Rattle.text_writing.specs.Parts.{Put};
ghost use Rattle.text_writing.specs.Columns.{columns_of, Even, written};

use crate::put::{put_line, put_number};
use crate::row::row_length;
use crate::table::Table;
use text_fields::ends::end_before;

// A table whose columns are of one length, of at most 1,024 numbers.
#[derive(Clone, Copy)]
pub struct EvenTable<'a> {
    pub table: Table<'a>,
    pub ghost even: { Even (columns_of table) },
}

// Built into each writer, which knows the number of its columns: without that printing 1,000 positions takes a fifth longer.
impl EvenTable<'_> {
    // The length of the lines: each column has as many bytes in them as it has written as a row.
    #[inline(always)]
    fn lines_length(&self) -> usize
        ensures value { result ≡ length (write_rows (rows_of (columns_of self.now.table))) }
        ensures upper_bound { result ≤ 56320 }
    {
        let columns = self.table.columns;
        columns.iter().map(|column| row_length(column)).sum()
    }

    // The length of the table.
    #[inline(always)]
    pub fn length(&self) -> usize
        ensures { result ≡ length (written self.now.table) }
    {
        self.table.names.len() + self.lines_length()
    }

    // Puts a line: the numbers of a row, parted by commas and ended by byte 10.
    #[inline(always)]
    fn put_row(&self, text: &mut [u8], at: usize, i: usize) -> usize
        requires in_lines { i < line_count (columns_of self.now.table) }
        requires row_in_bounds { at + length (write_row (row_of (columns_of self.now.table) i)) ≤ length text.old }
        ensures { Put (write_row (row_of (columns_of self.now.table) i)) text.old at text.new result }
    {
        let columns = self.table.columns;
        let mut next = at;
        for (j, column) in columns.iter().enumerate() {
            let after = columns.len() - j - 1;
            next = put_number(text, next, column[i], end_before(b',', b'\n', after));
        }
        next
    }

    // Puts the lines.
    #[inline(always)]
    fn put_lines(&self, text: &mut [u8], from: usize) -> usize
        requires { from + length (write_rows (rows_of (columns_of self.now.table))) ≤ length text.old }
        ensures { Put (write_rows (rows_of (columns_of self.now.table))) text.old from text.new result }
    {
        let mut at = from;
        for i in 0..self.table.lines() {
            at = self.put_row(text, at, i);
        }
        at
    }

    // Puts the table.
    #[inline(always)]
    pub fn put(&self, text: &mut [u8], from: usize) -> usize
        requires { from + length (written self.now.table) ≤ length text.old }
        ensures { Put (written self.now.table) text.old from text.new result }
    {
        let at = put_line(text, from, self.table.names);
        self.put_lines(text, at)
    }
}
