// The names lines: fixed byte strings that the reader compares and the writer writes. Line 3 is put together from the names of its columns.
ghost use Rattle.std.specs.Prelude.{◌≡◌};
ghost use Rattle.series.specs.Results.{refused};
ghost use Rattle.text_rules.specs.Names.{terms_line, line1, terms_numbers, form_name, account_line, positions_line, in_forms, line3, after_line, names_or, read_names};
ghost use Rattle.text_fields.specs.Parts.{read_of};

use forms::Form;
use text_fields::Read;
use text_fields::field::skip_line;
use text_rules::{PositionColumns, TermsColumns};

// Line 1 without the increment.
pub const TERMS_NAMES: [u8; 22] = *b"method,exercised,draw\n";

// Line 1 with it.
pub const INCREMENT_NAMES: [u8; 32] = *b"method,exercised,draw,increment\n";

// The name of the code column.
pub const CODE_NAME: [u8; 5] = *b"code,";

// The name of the account column.
pub const ACCOUNT_NAME: [u8; 8] = *b"account,";

// The name of the last column in a text with shorts.
pub const SHORT_NAME: [u8; 6] = *b"short\n";

// The name of the last column in a text with last numbers.
pub const LAST_NAME: [u8; 5] = *b"last\n";

// Reads one of two lines: what the first one that the text begins with stands for.
fn read_either<'a, T: Copy>(
    text: &'a [u8],
    first: (&[u8], T),
    second: (&[u8], T),
) -> Option<Read<'a, T>>
    ensures { read_of 12 (λ found. found) result ≡ names_or first.entry.1 (after_line first.entry.0.now text.now) (names_or second.entry.1 (after_line second.entry.0.now text.now) (refused 12)) }
{
    let (line, found) = first;
    if let Some(rest) = skip_line(text, line) {
        return Some(Read { found, rest });
    }
    let (line, found) = second;
    let rest = skip_line(text, line)?;
    Some(Read { found, rest })
}

// Reads line 1: the columns that it names.
pub fn read_terms_names<'a>(text: &'a [u8]) -> Option<Read<'a, TermsColumns>>
    ensures { read_of 12 (λ found. found) result ≡ read_names terms_line line1 text.now }
{
    read_either(
        text,
        (&TERMS_NAMES, TermsColumns::MethodExercisedDraw),
        (&INCREMENT_NAMES, TermsColumns::MethodExercisedDrawIncrement),
    )
}

// How many numbers line 2 has after the method.
pub fn terms_numbers(columns: TermsColumns) -> usize
    ensures { result ≡ terms_numbers columns }
{
    match columns {
        TermsColumns::MethodExercisedDraw => 2,
        TermsColumns::MethodExercisedDrawIncrement => 3,
    }
}

// Reads line 3 from the name of its last column on.
fn read_form_name<'a>(text: &'a [u8], coded: bool) -> Option<Read<'a, PositionColumns>>
    ensures { read_of 12 (λ found. found) result ≡ read_names (λ c. form_name c.form) (in_forms coded) text.now }
{
    let shorts = PositionColumns {
        form: Form::Shorts,
        coded,
    };
    let last_numbers = PositionColumns {
        form: Form::LastNumbers,
        coded,
    };
    read_either(text, (&SHORT_NAME, shorts), (&LAST_NAME, last_numbers))
}

// Reads line 3 from the name of the account column on.
fn read_account_name<'a>(text: &'a [u8], coded: bool) -> Option<Read<'a, PositionColumns>>
    ensures { read_of 12 (λ found. found) result ≡ read_names account_line (in_forms coded) text.now }
{
    let rest = skip_line(text, &ACCOUNT_NAME)?;
    read_form_name(rest, coded)
}

// Reads line 3, with the name of the code column or without it: the columns that it names.
pub fn read_position_names<'a>(text: &'a [u8]) -> Option<Read<'a, PositionColumns>>
    ensures { read_of 12 (λ found. found) result ≡ read_names positions_line line3 text.now }
{
    match skip_line(text, &CODE_NAME) {
        Some(rest) => read_account_name(rest, true),
        None => read_account_name(text, false),
    }
}
