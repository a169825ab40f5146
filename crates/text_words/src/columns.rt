// Which columns a text has: its increment is left out where it is the one that is meant where none is given, its codes where every code is its account.
ghost use Rattle.std.specs.Prelude.{◌≡◌};
ghost use Rattle.text_rules.specs.Text.{same_numbers, terms_columns};

use series::{DEFAULT_INCREMENT, Terms};
use text_rules::TermsColumns;

// The columns that line 1 names for these terms.
pub fn terms_columns(terms: Terms) -> TermsColumns
    ensures { result ≡ terms_columns terms }
{
    if terms.increment.0 == DEFAULT_INCREMENT {
        TermsColumns::MethodExercisedDraw
    } else {
        TermsColumns::MethodExercisedDrawIncrement
    }
}

// Whether two lists hold the same numbers: `==`, with what the rules of a text call it as its promise.
pub fn same_numbers(first: &[u32], second: &[u32]) -> bool
    ensures { result ≡ same_numbers first.now second.now }
{
    first == second
}
