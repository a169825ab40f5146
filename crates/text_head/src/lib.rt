// Reading lines 1 to 3 of a text.
#![tactic(auto)]

ghost use Rattle.std.specs.Prelude.{◌≡◌, ◌≤◌};
ghost use Rattle.series.specs.Results.{refused};
ghost use Rattle.series.specs.Answers.{number_of};
ghost use Rattle.text_rules.specs.Fields.{Text};
ghost use Rattle.text_rules.specs.Letters.{method_of};
ghost use Rattle.text_rules.specs.Rows.{read_row};
ghost use Rattle.text_rules.specs.Text.{read_terms, read_head};
ghost use Rattle.text_words.specs.Parts.{named_means};
ghost use Rattle.text_head.specs.Parts.{FirstField, terms_means, head_means};

use series::{Contracts, DEFAULT_INCREMENT, Method, Refusal, Terms, terms_of};
use text_fields::Read;
use text_fields::field::read_field;
use text_fields::row::{has_fields, read_row};
use text_rules::PositionColumns;
use text_words::letters::method_by;
use text_words::names::{read_position_names, read_terms_names, terms_numbers};

// Lines 1 to 3: the values of line 2, the columns of the position lines, and these lines.
#[derive(Clone, Copy)]
pub struct Head<'a> {
    pub terms: Terms,
    pub columns: PositionColumns,
    pub lines: &'a [u8],
}

// The method that a field names: exactly W, P, L or R.
fn read_method(field: &[u8]) -> Option<Method>
    ensures { named_means result ≡ method_of field.now }
{
    match field {
        [letter] => method_by(*letter),
        _ => None,
    }
}

// The refusal of a line 2 whose numbers, after the first field, are malformed: its fields are counted before the method is looked at.
fn refuse_terms(first: Read<&[u8]>, numbers: usize) -> Refusal
    requires { refused 13 ≡ read_row numbers first.rest.now }
    ensures { (s : Text) → FirstField s first.entry → refused (number_of result) ≡ read_terms numbers s }
{
    if !has_fields(first.rest, numbers) {
        return Refusal::Malformed;
    }
    match read_method(first.found) {
        Some(_) => Refusal::Malformed,
        None => Refusal::UnknownMethod,
    }
}

// Line 2, with so many numbers after the method: its fields first, then the method, then the numbers. The increment keeps its value where none is given.
fn read_terms<'a>(text: &'a [u8], numbers: usize) -> Result<Read<'a, Terms>, Refusal>
    requires { numbers ≤ 3 }
    ensures { terms_means result ≡ read_terms numbers text.now }
{
    let first = read_field(text, b',').ok_or(Refusal::Malformed)?;
    let mut values = [0, 0, DEFAULT_INCREMENT];
    let Some(rest) = read_row(first.rest, &mut values[..numbers]) else {
        return Err(refuse_terms(first, numbers));
    };
    let method = read_method(first.found).ok_or(Refusal::UnknownMethod)?;
    let [exercised, draw, increment] = values;
    let found = terms_of(method, Contracts(exercised), draw, Contracts(increment));
    Ok(Read { found, rest })
}

// Lines 1 to 3 of a text that is not too long.
pub fn read_head<'a>(text: &'a [u8]) -> Result<Head<'a>, Refusal>
    ensures { head_means result ≡ read_head text.now }
{
    if text.len() > 32768 {
        return Err(Refusal::TextTooLong);
    }
    let names = read_terms_names(text).ok_or(Refusal::NamesLine)?;
    let terms = read_terms(names.rest, terms_numbers(names.found))?;
    let columns = read_position_names(terms.rest).ok_or(Refusal::NamesLine)?;
    Ok(Head {
        terms: terms.found,
        columns: columns.found,
        lines: columns.rest,
    })
}
