// A table: a names line as given, and a line for each row of its columns.
ghost use Rattle.std.specs.Prelude.{◌≡◌, ◌≤◌, length, IfOk};
ghost use Rattle.series.specs.Results.{value};
ghost use Rattle.text_writing.specs.Answers.{writing_of};
ghost use Rattle.text_writing.specs.Tables.{both_within};

use crate::even_table::EvenTable;
use series::Refusal;

// A names line, and columns, at most five.
#[derive(Clone, Copy)]
pub struct Table<'a> {
    pub names: &'a [u8],
    pub columns: &'a [&'a [u32]],
    pub ghost few: { length columns.now ≤ 5 },
}

impl<'a> Table<'a> {
    ghost use Rattle.series.specs.Answers.{outcome_of};
    ghost use Rattle.text_rules.specs.Calls.{evenly, line_count, head_and_lines};
    ghost use Rattle.text_writing.specs.Columns.{columns_of, written};

    // How many lines follow the names line.
    pub(crate) fn lines(&self) -> usize
        ensures { result ≡ line_count (columns_of self.now) }
    {
        match self.columns.first() {
            Some(column) => column.len(),
            None => 0,
        }
    }

    // Whether the columns have as many numbers as there are lines.
    fn is_even(&self) -> bool
        ensures { result ≡ evenly (line_count (columns_of self.now)) (columns_of self.now) }
    {
        let lines = self.lines();
        self.columns.iter().all(|column| column.len() == lines)
    }

    // Judges the columns: 1 where they differ in length, then 15.
    pub(crate) fn judged(&self) -> Result<EvenTable<'a>, Refusal>
        ensures judged { outcome_of (λ even. written even.table) result ≡ head_and_lines self.now.names.now (columns_of self.now) }
        ensures table { IfOk result (λ even. even.table ≡ self.now) }
    {
        if !self.is_even() {
            return Err(Refusal::LengthsDiffer);
        }
        if self.lines() > 1024 {
            return Err(Refusal::TooManyLines);
        }
        Ok(EvenTable { table: *self })
    }
}

// The length of two texts, one after the other, where the room is enough, else 4.
#[tactic(auto, unfolding(crate::specs::Tables::both_within))]
pub fn both_within(first: usize, second: usize, room: usize) -> Result<usize, Refusal>
    ensures { writing_of result ≡ both_within (value first) (value second) room }
{
    if room < first || room - first < second {
        return Err(Refusal::OutputTooShort);
    }
    Ok(first + second)
}
