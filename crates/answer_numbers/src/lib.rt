// Between the numbers of C and the types of the calls: the form, and what an answer hands back.
#![tactic(auto)]

ghost use Rattle.std.specs.Prelude.{◌≡◌};
ghost use Rattle.series.specs.Answers.{allocation_of, answer_of, handed_back, place_of};
ghost use Rattle.answer_numbers.specs.Numbers.{form_by, form_number, handing, handing_of, handed_numbers, numbers_mean};

use forms::Form;
use series::{Allocated, Place, Refusal};

// The form of a number: 0 is shorts, any other number last numbers. No From: an impl would stand beside Form, in `forms`, and what the numbers of C mean is defined here.
#[tactic(auto, unfolding(crate::specs::Numbers::form_by))]
pub fn form_by(number: u32) -> Form
    ensures { result ≡ form_by number }
{
    match number {
        0 => Form::Shorts,
        _ => Form::LastNumbers,
    }
}

// The number of a form. No From either.
#[tactic(auto, unfolding(crate::specs::Numbers::form_number))]
pub fn number_of(form: Form) -> u32
    ensures { result ≡ form_number form }
{
    match form {
        Form::Shorts => 0,
        Form::LastNumbers => 1,
    }
}

// What an allocation hands back to C: T and the further number, 0 where there is none.
#[derive(Clone, Copy, Debug, PartialEq, Eq)]
pub struct Numbers {
    pub total: u32,
    pub further: u32,
}

// The number of a starting place, 0 where there is none.
fn number_of_start(start: Option<Place>) -> u32
    ensures { result ≡ handed_back (place_of start) }
{
    start.map_or(0, |place| place.0)
}

// The numbers of an allocation.
fn allocated_numbers(allocated: Allocated) -> Numbers
    ensures { handing_of result ≡ handing (allocation_of allocated) }
{
    let (total, further) = match allocated {
        Allocated::Wheel { total, blocks } => (total, blocks),
        Allocated::ProRata { total, remainder } => (total, remainder.0),
        Allocated::Lottery { total, start } => (total, number_of_start(start)),
        Allocated::RemainderDraw { total, start } => (total, number_of_start(start)),
    };
    Numbers {
        total: total.0,
        further,
    }
}

// The numbers of an answer.
#[tactic(auto, unfolding(crate::specs::Numbers::handed_numbers))]
pub fn numbers_of(answer: Result<Allocated, Refusal>) -> Result<Numbers, Refusal>
    ensures { numbers_mean result ≡ handed_numbers (answer_of answer) }
{
    answer.map(allocated_numbers)
}
