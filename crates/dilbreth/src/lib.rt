// The calls of the library for C and Rust, over numbers and slices. Each answers 0, or the number of a refusal of documents 01 and 02, and then nothing behind its arguments has changed.
#![tactic(auto)]

mod day;
mod explain;
mod merge;
mod version;

ghost use Rattle.std.specs.Prelude.{length};
ghost use Rattle.series.specs.Outputs.{lent};
ghost use Rattle.text_rules.specs.Calls.{read_into, change_into};
ghost use Rattle.jobs.specs.Jobs.{JobsCall};
ghost use Rattle.text_writing.specs.Answers.{writing_of};
ghost use Rattle.dilbreth.specs.Exports.{listing_by, Allocates, Reads, written_by, printed_into, Hands, Writes};

use answer_numbers::{form_by, number_of, numbers_of};
use forms::Listing;
use jobs::Job;
use series::{AccountList, Contracts, Refusal, terms_of};
use text_words::letters::{letter_of, method_by};

// Assigns exercised contracts by the method W, P, L or R; any other letter is 14.
#[unsafe(no_mangle)]
pub extern "C" fn dilbreth_allocate(
    method: u8,
    exercised: u32,
    draw: u32,
    increment: u32,
    form: u32,
    codes: &[u32],
    accounts: &[u32],
    numbers: &[u32],
    amounts: &mut [u32],
    total: &mut u32,
    further: &mut u32,
) -> u32
    ensures { Allocates (listing_by method exercised draw increment form codes.now accounts.now numbers.now) result amounts.old amounts.new (lent total.old total.new) (lent further.old further.new) }
{
    let Some(named) = method_by(method) else {
        return u32::from(Refusal::UnknownMethod);
    };
    let listing = Listing {
        form: form_by(form),
        terms: terms_of(named, Contracts(exercised), draw, Contracts(increment)),
        codes,
        accounts,
        numbers,
    };
    match numbers_of(listing::allocate(&listing, amounts)) {
        Ok(handed) => {
            *total = handed.total;
            *further = handed.further;
            0
        }
        Err(refusal) => u32::from(refusal),
    }
}

// Many series in one call: allocates every job, or refuses before any.
#[unsafe(no_mangle)]
pub extern "C" fn dilbreth_allocate_jobs(
    accounts: &[u32],
    shorts: &[u32],
    jobs: &mut [Job],
    amounts: &mut [u32],
) -> u32
    ensures { JobsCall accounts.now shorts.now result (lent jobs.old jobs.new) (lent amounts.old amounts.new) }
{
    match jobs::allocate_jobs(&AccountList { accounts, shorts }, jobs, amounts) {
        Ok(()) => 0,
        Err(refusal) => u32::from(refusal),
    }
}

// Reads the text of a series into three lists.
#[unsafe(no_mangle)]
pub extern "C" fn dilbreth_read(
    text: &[u8],
    method: &mut u8,
    exercised: &mut u32,
    draw: &mut u32,
    increment: &mut u32,
    form: &mut u32,
    codes: &mut [u32],
    accounts: &mut [u32],
    numbers: &mut [u32],
    positions: &mut usize,
) -> u32
    ensures { Reads (read_into text.now (length codes.old) (length accounts.old) (length numbers.old)) result
        (lent method.old method.new) (lent exercised.old exercised.new) (lent draw.old draw.new)
        (lent increment.old increment.new) (lent form.old form.new)
        (lent codes.old codes.new) (lent accounts.old accounts.new) (lent numbers.old numbers.new)
        (lent positions.old positions.new) }
{
    match series_text::read(text, codes, accounts, numbers) {
        Ok(read) => {
            let terms = read.terms;
            *method = letter_of(terms.method);
            *exercised = terms.exercised.0;
            *draw = terms.draw;
            *increment = terms.increment.0;
            *form = number_of(read.form);
            *positions = read.positions;
            0
        }
        Err(refusal) => u32::from(refusal),
    }
}

// Hands the length of a written text back behind an argument, and answers 0 or the number of the refusal.
fn hand_length(writing: Result<usize, Refusal>, written: &mut usize) -> u32
    ensures { Hands (writing_of writing) result (lent written.old written.new) }
{
    match writing {
        Ok(n) => {
            *written = n;
            0
        }
        Err(unwritten) => u32::from(unwritten),
    }
}

// Writes the text of a series; any letter but W, P, L and R is 14 before the other refusals. The listing is made as in dilbreth_allocate: a function for both would take the same eight arguments.
#[unsafe(no_mangle)]
pub extern "C" fn dilbreth_write(
    method: u8,
    exercised: u32,
    draw: u32,
    increment: u32,
    form: u32,
    codes: &[u32],
    accounts: &[u32],
    numbers: &[u32],
    text: &mut [u8],
    written: &mut usize,
) -> u32
    ensures { Writes (written_by (listing_by method exercised draw increment form codes.now accounts.now numbers.now) (length text.old)) result text.old text.new (lent written.old written.new) }
{
    let Some(named) = method_by(method) else {
        return u32::from(Refusal::UnknownMethod);
    };
    let listing = Listing {
        form: form_by(form),
        terms: terms_of(named, Contracts(exercised), draw, Contracts(increment)),
        codes,
        accounts,
        numbers,
    };
    hand_length(text_writing::write(&listing, text), written)
}

// Changes a text from its form to the other.
#[unsafe(no_mangle)]
pub extern "C" fn dilbreth_change(text: &[u8], output: &mut [u8], written: &mut usize) -> u32
    ensures { Writes (change_into text.now (length output.old)) result output.old output.new (lent written.old written.new) }
{
    let writing = form_change::change(text, output);
    hand_length(writing, written)
}

// Writes what the program prints for a text: the amounts, or the refusal of the text, which is no refusal of this call. No bytes are answered only where the output is too short.
#[unsafe(no_mangle)]
pub extern "C" fn dilbreth_respond(text: &[u8], output: &mut [u8], written: &mut usize) -> u32
    ensures { Writes (printed_into text.now (length output.old)) result output.old output.new (lent written.old written.new) }
{
    let response = assignment_text::respond(text, output);
    if response.written == 0 {
        return u32::from(Refusal::OutputTooShort);
    }
    *written = response.written;
    0
}
