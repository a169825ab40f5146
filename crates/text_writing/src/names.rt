// Writing the names lines.
ghost use Rattle.std.specs.Prelude.{◌+◌, ◌≤◌, length};
ghost use Rattle.text_rules.specs.Names.{terms_line, code_name, form_name, positions_line};
ghost use Rattle.text_writing.specs.Parts.{Put};

use crate::put::put_line;
use forms::Form;
use text_rules::{PositionColumns, TermsColumns};
use text_words::names::{
    ACCOUNT_NAME, CODE_NAME, INCREMENT_NAMES, LAST_NAME, SHORT_NAME, TERMS_NAMES,
};

// Puts line 1.
#[tactic(auto, unfolding(text_rules::specs::Names::terms_line, series::specs::Ascii::ascii))]
pub fn put_terms_line(text: &mut [u8], at: usize, columns: TermsColumns) -> usize
    requires { at + length (terms_line columns) ≤ length text.old }
    ensures { Put (terms_line columns) text.old at text.new result }
{
    match columns {
        TermsColumns::MethodExercisedDraw => put_line(text, at, &TERMS_NAMES),
        TermsColumns::MethodExercisedDrawIncrement => put_line(text, at, &INCREMENT_NAMES),
    }
}

// Puts the name of the code column, where there is one.
#[tactic(auto, using(crate::proofs::PutLaws::put_nil), unfolding(text_rules::specs::Names::code_name, series::specs::Ascii::ascii))]
fn put_code_name(text: &mut [u8], at: usize, coded: bool) -> usize
    requires { at + length (code_name coded) ≤ length text.old }
    ensures { Put (code_name coded) text.old at text.new result }
{
    if coded {
        return put_line(text, at, &CODE_NAME);
    }
    at
}

// Puts the name of the last column.
#[tactic(auto, unfolding(text_rules::specs::Names::form_name, series::specs::Ascii::ascii))]
fn put_form_name(text: &mut [u8], at: usize, form: Form) -> usize
    requires { at + length (form_name form) ≤ length text.old }
    ensures { Put (form_name form) text.old at text.new result }
{
    match form {
        Form::Shorts => put_line(text, at, &SHORT_NAME),
        Form::LastNumbers => put_line(text, at, &LAST_NAME),
    }
}

// Puts line 3, name by name.
pub fn put_positions_line(text: &mut [u8], at: usize, columns: PositionColumns) -> usize
    requires { at + length (positions_line columns) ≤ length text.old }
    ensures { Put (positions_line columns) text.old at text.new result }
{
    let account = put_code_name(text, at, columns.coded);
    let last = put_line(text, account, &ACCOUNT_NAME);
    put_form_name(text, last, columns.form)
}
