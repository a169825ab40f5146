// The form of a list: document 02's last numbers instead of counts.
#![tactic(auto)]

ghost use Rattle.std.specs.Prelude.{◌≡◌, length, take};
ghost use Rattle.series.specs.Answers.{number_of, series_of};
ghost use Rattle.series.specs.Outputs.{onto};
ghost use Rattle.forms.specs.Forms.{listing_of, series_with, differences, shorts_by, other_form, number_in, InForm};

use series::{Positions, Refusal, Series, Terms};

// What a list has for each position: its shorts, or its last sequence number.
#[derive(Clone, Copy, Debug, PartialEq, Eq)]
pub enum Form {
    Shorts,
    LastNumbers,
}

// A series as it is listed: in a form, and so with shorts or a last number for each position.
#[derive(Clone, Copy)]
pub struct Listing<'a> {
    pub form: Form,
    pub terms: Terms,
    pub codes: &'a [u32],
    pub accounts: &'a [u32],
    pub numbers: &'a [u32],
}

impl<'a> Listing<'a> {
    // The series with these shorts.
    pub fn series<'b>(&self, shorts: &'b [u32]) -> Series<'b>
    where
        'a: 'b,
        ensures { series_of result ≡ series_with (listing_of self.now) shorts.now }
    {
        Series {
            terms: self.terms,
            positions: Positions {
                codes: self.codes,
                accounts: self.accounts,
                shorts,
            },
        }
    }
}

// The other form, as document 02's change makes it. No impl of `Not`: a form is neither true nor false.
pub fn other(form: Form) -> Form
    ensures { result ≡ other_form form }
{
    match form {
        Form::Shorts => Form::LastNumbers,
        Form::LastNumbers => Form::Shorts,
    }
}

// A refusal in a form: with last numbers 20 stands in the place of 6.
pub fn refusal_in(form: Form, refusal: Refusal) -> Refusal
    ensures { number_of result ≡ number_in form (number_of refusal) }
{
    match (form, refusal) {
        (Form::LastNumbers, Refusal::NoShorts) => Refusal::LastNotAbove,
        _ => refusal,
    }
}

// What a call on the shorts of a list comes to in the list's form.
pub fn in_form<A>(form: Form, outcome: Result<A, Refusal>) -> Result<A, Refusal>
    ensures { InForm form outcome result }
{
    outcome.map_err(
        |refusal: Refusal| -> Refusal
            ensures { number_of result ≡ number_in form (number_of refusal) }
        { refusal_in(form, refusal) },
    )
}

// Puts the shorts in the place of last numbers: each less the one before, 0 where it is not above that.
fn take_differences(numbers: &mut [u32])
    ensures { numbers.new ≡ differences 0 numbers.old }
{
    let mut last = 0;
    for number in numbers.iter_mut() {
        let before = last;
        last = *number;
        *number = last.saturating_sub(before);
    }
}

// Puts the shorts in the place of the numbers of a list.
pub fn to_shorts(form: Form, numbers: &mut [u32])
    ensures { numbers.new ≡ shorts_by form numbers.old }
{
    match form {
        Form::Shorts => {}
        Form::LastNumbers => take_differences(numbers),
    }
}

// Fills in the shorts of last numbers, for as many positions as both lists have; elements past them are kept. It and `take_differences` share one law (`Filling`): by that one a copy would come first, a pass more.
pub fn fill_shorts(lasts: &[u32], shorts: &mut [u32])
    ensures { shorts.new ≡ onto (take (length shorts.old) (differences 0 lasts.now)) shorts.old }
{
    let mut before = 0;
    for (i, &last) in lasts.iter().enumerate() {
        if shorts.len() <= i {
            return;
        }
        shorts[i] = last.saturating_sub(before);
        before = last;
    }
}
