// Reading the text of a series into three lent lists.
#![tactic(auto)]

mod lines;

ghost use Rattle.std.specs.Prelude.{◌≡◌};
ghost use Rattle.series.specs.Outputs.{lent};
ghost use Rattle.text_rules.specs.Calls.{ReadingCall};
ghost use Rattle.series_text.specs.Answers.{reading_of};

use forms::Form;
use lines::{Lists, read_positions};
use series::{Refusal, Terms};
use text_head::read_head;

// What reading a text hands back: its form, the values of line 2 and the number of positions.
#[derive(Clone, Copy, Debug, PartialEq, Eq)]
pub struct ReadSeries {
    pub form: Form,
    pub terms: Terms,
    pub positions: usize,
}

// Reads the text of a series into three lists. After a refusal all are as they were, and what stands past the positions is kept.
pub fn read(
    text: &[u8],
    codes: &mut [u32],
    accounts: &mut [u32],
    numbers: &mut [u32],
) -> Result<ReadSeries, Refusal>
    ensures { ReadingCall text.now (reading_of result) (lent codes.old codes.new) (lent accounts.old accounts.new) (lent numbers.old numbers.new) }
{
    let head = read_head(text)?;
    // The positions stand here until nothing can refuse any more.
    let mut found = Lists {
        codes: [0; 1024],
        accounts: [0; 1024],
        numbers: [0; 1024],
    };
    let n = read_positions(head.lines, head.columns.coded, &mut found)?;
    if codes.len() < n || accounts.len() < n || numbers.len() < n {
        return Err(Refusal::OutputTooShort);
    }
    lists::copy(&found.codes[..n], codes);
    lists::copy(&found.accounts[..n], accounts);
    lists::copy(&found.numbers[..n], numbers);
    Ok(ReadSeries {
        form: head.columns.form,
        terms: head.terms,
        positions: n,
    })
}
