// The calls on a list in either form: judging it alone, and the allocating call.
#![tactic(auto)]

ghost use Rattle.std.specs.Prelude.{◌≡◌, ◌≤◌, length};
ghost use Rattle.series.specs.Answers.{answer_of};
ghost use Rattle.series.specs.Series.{MOST_POSITIONS};
ghost use Rattle.forms.specs.Forms.{listing_of, read_as, list_verdict_in, ListingCall};
ghost use Rattle.forms.specs.declared.Form.{Form as Form·};
ghost use Rattle.rising_lists.specs.Judged.{judged_of};

use forms::{Form, Listing, fill_shorts, in_form};
use series::{Allocated, Contracts, MOST_POSITIONS, Refusal};

// A list of at most so many positions has a short room for its shorts. Rooms are arrays, as the project has no heap.
const SHORT_LIST: usize = 128;

// Judges a list of last numbers by its shorts. One that is too long is refused for its length alone.
fn judge_lasts(listing: &Listing) -> Result<Contracts, Refusal>
    ensures { judged_of result ≡ list_verdict_in Form·.LastNumbers listing.now.terms.method listing.now.codes.now listing.now.accounts.now listing.now.numbers.now }
{
    let n = listing.numbers.len();
    if MOST_POSITIONS < n {
        let series = listing.series(listing.numbers);
        return list_judging::judge_list(listing.terms.method, &series.positions);
    }
    let mut room = [0u32; MOST_POSITIONS];
    let shorts = &mut room[..n];
    fill_shorts(listing.numbers, shorts);
    let series = listing.series(shorts);
    let judged = list_judging::judge_list(listing.terms.method, &series.positions);
    in_form(Form::LastNumbers, judged)
}

// Judges a list alone, with no output, S or draw: of the terms the method counts.
pub fn judge_list(listing: &Listing) -> Result<Contracts, Refusal>
    ensures { judged_of result ≡ list_verdict_in listing.now.form listing.now.terms.method listing.now.codes.now listing.now.accounts.now listing.now.numbers.now }
{
    match listing.form {
        Form::Shorts => {
            let series = listing.series(listing.numbers);
            list_judging::judge_list(listing.terms.method, &series.positions)
        }
        Form::LastNumbers => judge_lasts(listing),
    }
}

// The allocating call on a list of last numbers, whose shorts are made in a room for N positions. `judge_lasts` makes them so too: one function, handed the call, would also promise that it may be called and what it is called on.
fn allocate_in_room<const N: usize>(
    listing: &Listing,
    amounts: &mut [u32],
) -> Result<Allocated, Refusal>
    requires fits { length listing.now.numbers.now ≤ N }
    requires small { N ≤ MOST_POSITIONS }
    ensures { ListingCall (read_as Form·.LastNumbers (listing_of listing.now)) (answer_of result) amounts.old amounts.new }
{
    let mut room = [0u32; N];
    let shorts = &mut room[..listing.numbers.len()];
    fill_shorts(listing.numbers, shorts);
    let answer = allocation::allocate(&listing.series(shorts), amounts);
    in_form(Form::LastNumbers, answer)
}

// The allocating call on a list of last numbers. One that is too long is refused for its length alone.
fn allocate_lasts(listing: &Listing, amounts: &mut [u32]) -> Result<Allocated, Refusal>
    ensures { ListingCall (read_as Form·.LastNumbers (listing_of listing.now)) (answer_of result) amounts.old amounts.new }
{
    let n = listing.numbers.len();
    if MOST_POSITIONS < n {
        return allocation::allocate(&listing.series(listing.numbers), amounts);
    }
    if n <= SHORT_LIST {
        return allocate_in_room::<SHORT_LIST>(listing, amounts);
    }
    allocate_in_room::<MOST_POSITIONS>(listing, amounts)
}

// Assigns the exercised contracts to the positions, amounts in list order; or the first refusal that applies, and then amounts keeps its elements.
pub fn allocate(listing: &Listing, amounts: &mut [u32]) -> Result<Allocated, Refusal>
    ensures { ListingCall (listing_of listing.now) (answer_of result) amounts.old amounts.new }
{
    match listing.form {
        Form::Shorts => allocation::allocate(&listing.series(listing.numbers), amounts),
        Form::LastNumbers => allocate_lasts(listing, amounts),
    }
}
