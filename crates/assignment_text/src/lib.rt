// From a text to the bytes that the program prints.
#![tactic(auto)]

mod printed_allocation;
mod ranges;

ghost use Rattle.std.specs.Prelude.{◌≡◌, ◌≤◌, ◌++◌, length};
ghost use Rattle.series.specs.Answers.{series_of};
ghost use Rattle.series.specs.Results.{status};
ghost use Rattle.series.specs.Places.{total as total_of};
ghost use Rattle.series.specs.Series.{MOST_CONTRACTS};
ghost use Rattle.forms.specs.Forms.{shorts_by};
ghost use Rattle.text_rules.specs.Text.{MOST_LINES};
ghost use Rattle.responses.specs.Printed.{assigned_lines, range_lines, ranges_by, series_or_refusal, text_or_refusal, printed};
ghost use Rattle.responses.specs.Responses.{Responds, RespondsFor};
ghost use Rattle.assignment_text.specs.Lists.{Lists};

use forms::Form;
use printed_allocation::PrintedAllocation;
use ranges::Ranges;
use responses::{Response, answer_written, refuse};
use series::{Method, Positions, Series, Terms};
use text_writing::Table;

// The line before the amounts of an allocation.
const ASSIGNED_NAMES: [u8; 17] = *b"account,assigned\n";

// The line before the ranges, which R has after the amounts.
const RANGE_NAMES: [u8; 32] = *b"account,first,last,first2,last2\n";

// Prints the amounts of an allocation.
fn print(allocation: &PrintedAllocation, output: &mut [u8]) -> Response
    ensures { Responds result (assigned_lines allocation.now.accounts.now allocation.now.amounts.now) 0 output.old output.new }
{
    answer_written(text_writing::write_table(
        &ASSIGNED_NAMES,
        allocation.accounts,
        allocation.amounts,
        output,
    ))
}

// Prints the amounts of an allocation and the ranges of its positions. Built into respond, its lists would take the stack of a call past 64 KB.
#[inline(never)]
fn print_with_ranges(allocation: &PrintedAllocation, output: &mut [u8]) -> Response
    ensures { Responds result (assigned_lines allocation.now.accounts.now allocation.now.amounts.now ++ range_lines allocation.now.accounts.now allocation.now.shorts.now) 0 output.old output.new }
{
    let accounts = allocation.accounts;
    let n = allocation.shorts.len();
    let mut ranges = Ranges {
        firsts: [0; 1024],
        lasts: [0; 1024],
        firsts2: [0; 1024],
        lasts2: [0; 1024],
    };
    ranges::fill(allocation.shorts, &mut ranges);
    let first = Table {
        names: &ASSIGNED_NAMES,
        columns: &[accounts, allocation.amounts],
    };
    let second = Table {
        names: &RANGE_NAMES,
        columns: &[
            accounts,
            &ranges.firsts[..n],
            &ranges.lasts[..n],
            &ranges.firsts2[..n],
            &ranges.lasts2[..n],
        ],
    };
    answer_written(text_writing::write_tables(&first, &second, output))
}

// Prints an allocation by the method: its amounts, and under R the ranges after them.
fn print_by(method: Method, allocation: &PrintedAllocation, output: &mut [u8]) -> Response
    ensures { Responds result (assigned_lines allocation.now.accounts.now allocation.now.amounts.now ++ ranges_by method allocation.now.accounts.now allocation.now.shorts.now) 0 output.old output.new }
{
    match method {
        Method::RemainderDraw => print_with_ranges(allocation, output),
        _ => print(allocation, output),
    }
}

// Assigns a series of at most 1,024 positions that was listed in a form, and prints the amounts or the refusal.
fn assign(form: Form, series: &Series, amounts: &mut [u32], output: &mut [u8]) -> Response
    requires { Lists (series_of series.now).accounts (series_of series.now).shorts amounts.old }
    ensures { RespondsFor result (series_or_refusal form (series_of series.now)) output.old output.new }
{
    match allocation::allocate(series, amounts) {
        Ok(_) => {
            let allocation = PrintedAllocation {
                accounts: series.positions.accounts,
                shorts: series.positions.shorts,
                amounts,
            };
            print_by(series.terms.method, &allocation, output)
        }
        Err(refusal) => refuse(forms::refusal_in(form, refusal), output),
    }
}

// Assigns a listed series of at most 1,024 positions. No Listing: its shorts are put in the place of its numbers, so that the call needs no list more.
fn assign_listing(
    form: Form,
    terms: Terms,
    codes: &[u32],
    accounts: &[u32],
    numbers: &mut [u32],
    amounts: &mut [u32],
    output: &mut [u8],
) -> Response
    requires { Lists accounts.now numbers.old amounts.old }
    ensures { RespondsFor result (series_or_refusal form (record { terms = terms; codes = codes.now; accounts = accounts.now; shorts = shorts_by form numbers.old })) output.old output.new }
{
    forms::to_shorts(form, numbers);
    let series = Series {
        terms,
        positions: Positions {
            codes,
            accounts,
            shorts: numbers,
        },
    };
    assign(form, &series, amounts, output)
}

// Prints what a text leads to: the amounts of its series, for R with the ranges, or a refusal. An output that is too short keeps its bytes, and bytes past what is printed are kept.
pub fn respond(text: &[u8], output: &mut [u8]) -> Response
    ensures { Responds result (printed text.now) (status (text_or_refusal text.now)) output.old output.new }
{
    // Three lists, since reading fills the three that C lends it, and keeps them after a refusal; and one for the amounts.
    let mut codes = [0; 1024];
    let mut accounts = [0; 1024];
    let mut numbers = [0; 1024];
    let mut amounts = [0; 1024];
    match series_text::read(text, &mut codes, &mut accounts, &mut numbers) {
        Err(refusal) => refuse(refusal, output),
        Ok(read) => {
            let n = read.positions;
            assign_listing(
                read.form,
                read.terms,
                &codes[..n],
                &accounts[..n],
                &mut numbers[..n],
                &mut amounts[..n],
                output,
            )
        }
    }
}
