// Writing texts: a series, one table or two, and a note.
#![tactic(auto)]

mod even_table;
mod names;
mod put;
mod row;
mod table;

ghost use Rattle.std.specs.Prelude.{◌≤◌, length};
ghost use Rattle.forms.specs.Forms.{listing_of};
ghost use Rattle.text_rules.specs.Text.{terms_columns, write_head};
ghost use Rattle.text_rules.specs.Calls.{write_into, table_into, note_into, lines_into, WritingCall};
ghost use Rattle.text_writing.specs.Answers.{writing_of};
ghost use Rattle.text_writing.specs.Parts.{Put};
ghost use Rattle.text_writing.specs.Columns.{columns_of};
ghost use Rattle.text_writing.specs.Tables.{tables_into};

use forms::Listing;
use put::put_line;
use row::put_row;
use series::{Refusal, Terms};
pub use table::Table;
use table::both_within;
use text_rules::PositionColumns;
use text_words::columns::{same_numbers, terms_columns};
use text_words::letters::letter_of;
use text_words::names::terms_numbers;

// Puts lines 1 to 3 at the start of a head, and hands back their length.
fn put_head(head: &mut [u8], terms: Terms, positions: PositionColumns) -> usize
    requires { 86 ≤ length head.old }
    ensures { Put (write_head (record { terms = terms_columns terms; coded = positions.coded }) positions.form terms) head.old 0 head.new result }
{
    let columns = terms_columns(terms);
    let line2 = names::put_terms_line(head, 0, columns);
    let letter = [letter_of(terms.method), b','];
    let numbers = put_line(head, line2, &letter);
    let row = [terms.exercised.0, terms.draw, terms.increment.0];
    let line3 = put_row(head, numbers, &row[..terms_numbers(columns)], b',', b'\n');
    names::put_positions_line(head, line3, positions)
}

// Writes the text of a listing, without its codes where every code is its account, and without its increment where it is the one that is meant where none is given. A refusal writes nothing, and bytes past the text are kept.
pub fn write(listing: &Listing, text: &mut [u8]) -> Result<usize, Refusal>
    ensures { WritingCall (write_into (listing_of listing.now) (length text.old)) (writing_of result) text.old text.new }
{
    let positions = PositionColumns {
        form: listing.form,
        coded: !same_numbers(listing.codes, listing.accounts),
    };
    let mut lines = [0; 86];
    let n = put_head(&mut lines, listing.terms, positions);
    let columns = [listing.codes, listing.accounts, listing.numbers];
    let left_out = usize::from(!positions.coded);
    let table = Table {
        names: &lines[..n],
        columns: &columns[left_out..],
    };
    let table = table.judged()?;
    let bytes = table.length();
    if bytes > 32768 {
        return Err(Refusal::TextTooLong);
    }
    if text.len() < bytes {
        return Err(Refusal::OutputTooShort);
    }
    Ok(table.put(text, 0))
}

// Writes a table alone. A refusal writes nothing, and bytes past the table are kept.
#[inline(always)]
fn write_alone(table: &Table, text: &mut [u8]) -> Result<usize, Refusal>
    ensures { WritingCall (lines_into table.now.names.now (columns_of table.now) (length text.old)) (writing_of result) text.old text.new }
{
    let table = table.judged()?;
    if text.len() < table.length() {
        return Err(Refusal::OutputTooShort);
    }
    Ok(table.put(text, 0))
}

// Writes a table: a names line as given, and a line for each account and its count. A refusal writes nothing, and bytes past the table are kept.
#[tactic(auto, unfolding(text_rules::specs::Calls::table_into))]
pub fn write_table(
    names: &[u8],
    accounts: &[u32],
    counts: &[u32],
    text: &mut [u8],
) -> Result<usize, Refusal>
    ensures { WritingCall (table_into names.now accounts.now counts.now (length text.old)) (writing_of result) text.old text.new }
{
    let columns = [accounts, counts];
    let table = Table {
        names,
        columns: &columns,
    };
    write_alone(&table, text)
}

// Writes two tables, one after the other. A refusal writes nothing, and bytes past the tables are kept.
pub fn write_tables(first: &Table, second: &Table, text: &mut [u8]) -> Result<usize, Refusal>
    ensures { WritingCall (tables_into first.now.names.now (columns_of first.now) second.now.names.now (columns_of second.now) (length text.old)) (writing_of result) text.old text.new }
{
    let first = first.judged()?;
    let second = second.judged()?;
    both_within(first.length(), second.length(), text.len())?;
    let at = first.put(text, 0);
    Ok(second.put(text, at))
}

// Writes a note: a line as given, and a line with the number. A refusal writes nothing, and bytes past the note are kept.
#[tactic(auto, unfolding(text_rules::specs::Calls::note_into))]
pub fn write_note(names: &[u8], number: u32, text: &mut [u8]) -> Result<usize, Refusal>
    ensures { WritingCall (note_into names.now number (length text.old)) (writing_of result) text.old text.new }
{
    let numbers = [number];
    let columns: [&[u32]; 1] = [&numbers];
    let table = Table {
        names,
        columns: &columns,
    };
    write_alone(&table, text)
}
