// The change: from a text of either form to the text of the other.
#![tactic(auto)]

ghost use Rattle.std.specs.Prelude.{◌≡◌, ◌≤◌, length};
ghost use Rattle.series.specs.Places.{total as total_of};
ghost use Rattle.series.specs.Series.{MOST_CONTRACTS};
ghost use Rattle.forms.specs.Forms.{listing_of, read_as, sums};
ghost use Rattle.forms.specs.declared.Form.{Form as Form·};
ghost use Rattle.text_rules.specs.Calls.{changed_into, change_into, WritingCall};
ghost use Rattle.text_writing.specs.Answers.{writing_of};

use forms::{Form, Listing, fill_shorts, in_form};
use list_judging::judge_list;
use series::Refusal;

// Fills in the last numbers of shorts: their sums, one position after the other. A judged list is handed on by its shorts alone, so that T is asked for.
fn fill_lasts(shorts: &[u32], lasts: &mut [u32])
    requires { (length lasts.old ≡ length shorts.now) × (total_of shorts.now ≤ MOST_CONTRACTS) }
    ensures { lasts.new ≡ sums 0 shorts.now }
{
    let mut sum = 0;
    for (i, &count) in shorts.iter().enumerate() {
        sum += count;
        lasts[i] = sum;
    }
}

// Judges a list of shorts, and writes its text by last numbers, which are made in a lent list.
fn change_shorts(listing: &Listing, lasts: &mut [u32], output: &mut [u8]) -> Result<usize, Refusal>
    requires { length lasts.old ≡ length listing.now.numbers.now }
    ensures { WritingCall (changed_into (read_as Form·.Shorts (listing_of listing.now)) (length output.old)) (writing_of result) output.old output.new }
{
    let series = listing.series(listing.numbers);
    judge_list(listing.terms.method, &series.positions)?;
    fill_lasts(listing.numbers, lasts);
    let changed = Listing {
        form: Form::LastNumbers,
        numbers: lasts,
        ..*listing
    };
    text_writing::write(&changed, output)
}

// Judges a list of last numbers by its shorts, which are made in a lent list, and writes its text by these.
fn change_lasts(listing: &Listing, shorts: &mut [u32], output: &mut [u8]) -> Result<usize, Refusal>
    requires { length shorts.old ≡ length listing.now.numbers.now }
    ensures { WritingCall (changed_into (read_as Form·.LastNumbers (listing_of listing.now)) (length output.old)) (writing_of result) output.old output.new }
{
    fill_shorts(listing.numbers, shorts);
    let series = listing.series(shorts);
    let judged = judge_list(listing.terms.method, &series.positions);
    in_form(Form::LastNumbers, judged)?;
    let changed = Listing {
        form: Form::Shorts,
        numbers: shorts,
        ..*listing
    };
    text_writing::write(&changed, output)
}

// Changes a list from its form to the other; the numbers are made in a lent list.
fn change_list(listing: &Listing, others: &mut [u32], output: &mut [u8]) -> Result<usize, Refusal>
    requires { length others.old ≡ length listing.now.numbers.now }
    ensures { WritingCall (changed_into (listing_of listing.now) (length output.old)) (writing_of result) output.old output.new }
{
    match listing.form {
        Form::Shorts => change_shorts(listing, others, output),
        Form::LastNumbers => change_lasts(listing, others, output),
    }
}

// Changes a text from its form to the other. A refusal writes nothing, and bytes past the changed text are kept.
pub fn change(text: &[u8], output: &mut [u8]) -> Result<usize, Refusal>
    ensures { WritingCall (change_into text.now (length output.old)) (writing_of result) output.old output.new }
{
    // Three lists, since reading fills the three that C lends it, and keeps them after a refusal; and one for the numbers of the other form.
    let mut codes = [0u32; 1024];
    let mut accounts = [0u32; 1024];
    let mut numbers = [0u32; 1024];
    let mut others = [0u32; 1024];
    let read = series_text::read(text, &mut codes, &mut accounts, &mut numbers)?;
    let n = read.positions;
    let listing = Listing {
        form: read.form,
        terms: read.terms,
        codes: &codes[..n],
        accounts: &accounts[..n],
        numbers: &numbers[..n],
    };
    change_list(&listing, &mut others[..n], output)
}
