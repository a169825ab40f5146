// Judging a call, in the order of document 01's table, with document 02's 19, 23 and 24: the judged list, or the first refusal that applies. The list is judged by the crate list_judging, whose `judge_list` is handed on.
#![tactic(auto, using(std::proofs::lemmas::Bool::Decides::nat_tests), unfolding(series::specs::Refusals::first, series::specs::Refusals::outside, series::specs::Refusals::increment_rows, series::specs::Refusals::draw_rows, series::specs::Refusals::undrawn, series::specs::Lottery::unstarted, series::specs::Refusals::then_draw_rows))]

ghost use Rattle.std.specs.Prelude.{◌≡◌, ◌≤◌, not, length, IfOk};
ghost use Rattle.series.specs.Places.{total as total_of, OnWheel};
ghost use Rattle.series.specs.Series.{MOST_CONTRACTS, MOST_POSITIONS};
ghost use Rattle.series.specs.Wheel.{MOST_INCREMENT as MOST_INCREMENT·};
ghost use Rattle.series.specs.Refusals.{first, outside, too_many_blocks, increment_rows, undrawn, draw_rows, then_draw_rows, terms_rows, verdict};
ghost use Rattle.series.specs.Answers.{outcome_of, series_of, series_on, coded_by_account};
ghost use Rattle.judging.specs.Judged.{ListOf};

mod judged_list;

pub use judged_list::JudgedList;
pub use list_judging::judge_list;
use series::{AccountList, Contracts, Method, Refusal, Series, Terms};

// The increment is at most so many contracts.
const MOST_INCREMENT: u32 = 1000;

// There are at most so many blocks.
const MOST_BLOCKS: u32 = 1_000_000;

// Under L the draw is at most this.
const MOST_LOTTERY_DRAW: u32 = 10_000;

// Whether a number is 1 to most.
fn is_within(number: u32, most: u32) -> bool
    ensures { result ≡ not (outside most number) }
{
    (1..=most).contains(&number)
}

// Whether the blocks of an increment are too many. T1 is above 1,000,000 exactly where S is above so many increments.
#[tactic(auto, using(crate::proofs::TableLaws::too_many))]
fn has_too_many_blocks(increment: Contracts, total: Contracts, exercised: Contracts) -> bool
    requires { OnWheel MOST_INCREMENT· increment.0 }
    ensures { result ≡ too_many_blocks increment.0 total.0 exercised.0 }
{
    (exercised.0 < total.0) & (MOST_BLOCKS * increment.0 < exercised.0)
}

// A call on a list that is judged: its terms, the shorts of the list and T.
#[derive(Clone, Copy)]
struct Call<'a> {
    terms: Terms,
    shorts: &'a [u32],
    total: Contracts,
    ghost few: { length shorts.now ≤ MOST_POSITIONS },
    ghost sum: { total.0 ≡ total_of shorts.now },
    ghost small: { total_of shorts.now ≤ MOST_CONTRACTS },
}

impl<'a> Call<'a> {
    // The increment, under W only.
    fn judge_increment(&self) -> Result<(), Refusal>
        ensures { outcome_of (λ _. self.now.total.0) result ≡ first (increment_rows self.now.terms self.now.total.0) self.now.total.0 }
    {
        let Method::Wheel = self.terms.method else {
            return Ok(());
        };
        let increment = self.terms.increment;
        if !is_within(increment.0, MOST_INCREMENT) {
            return Err(Refusal::IncrementOutOfRange);
        }
        if has_too_many_blocks(increment, self.total, self.terms.exercised) {
            return Err(Refusal::TooManyBlocks);
        }
        Ok(())
    }

    // The draw: 1 to T under W, 1 to 10,000 under L.
    fn judge_draw(&self) -> Result<(), Refusal>
        ensures { outcome_of (λ _. self.now.total.0) result ≡ first (draw_rows self.now.terms self.now.total.0) self.now.total.0 }
    {
        let most = match self.terms.method {
            Method::Wheel => self.total.0,
            Method::Lottery => MOST_LOTTERY_DRAW,
            Method::ProRata | Method::RemainderDraw => return Ok(()),
        };
        if !is_within(self.terms.draw, most) {
            return Err(Refusal::DrawOutOfRange);
        }
        Ok(())
    }

    // Whether the call is decided before the draw: S equals T, under W, L and R; then, under L and R only, one position.
    fn is_undrawn(&self) -> bool
        ensures { result ≡ undrawn self.now.terms self.now.total.0 (length self.now.shorts.now) }
    {
        let whole = self.terms.exercised.0 == self.total.0;
        match self.terms.method {
            Method::Wheel => whole,
            Method::ProRata => false,
            Method::Lottery | Method::RemainderDraw => whole | (self.shorts.len() == 1),
        }
    }

    // The draw, where nothing is decided before it.
    fn judge_then_draw(&self) -> Result<(), Refusal>
        ensures { outcome_of (λ _. self.now.total.0) result ≡ first (then_draw_rows self.now.terms self.now.total.0 (length self.now.shorts.now)) self.now.total.0 }
    {
        if self.is_undrawn() {
            return Ok(());
        }
        self.judge_draw()
    }

    // The terms: what is exercised, the increment, the draw.
    #[tactic(auto, using(std::proofs::lemmas::Bool::Decides::nat_tests), unfolding(series::specs::Refusals::first, series::specs::Refusals::exercised_rows, series::specs::Refusals::terms_rows))]
    fn judge_terms(&self) -> Result<JudgedList<'a>, Refusal>
        ensures judged { outcome_of (λ j. j.total.0) result ≡ first (terms_rows self.now.terms self.now.total.0 (length self.now.shorts.now)) self.now.total.0 }
        ensures list { IfOk result (λ j. (j.shorts.now ≡ self.now.shorts.now) × (j.exercised.0 ≡ self.now.terms.exercised.0)) }
    {
        if self.terms.exercised.0 == 0 {
            return Err(Refusal::NothingExercised);
        }
        if self.total.0 < self.terms.exercised.0 {
            return Err(Refusal::ExercisedAboveTotal);
        }
        self.judge_increment()?;
        self.judge_then_draw()?;
        Ok(JudgedList {
            shorts: self.shorts,
            total: self.total,
            exercised: self.terms.exercised,
        })
    }
}

// Judges a whole call; room is the length of its output.
pub fn judge<'a>(series: &Series<'a>, room: usize) -> Result<JudgedList<'a>, Refusal>
    ensures judged { outcome_of (λ j. j.total.0) result ≡ verdict (series_of series.now) room }
    ensures list { IfOk result (ListOf series.now.positions.shorts.now series.now.terms.exercised.0 room) }
{
    let total = list_judging::judge(series.terms.method, &series.positions, room)?;
    let call = Call {
        terms: series.terms,
        shorts: series.positions.shorts,
        total,
    };
    call.judge_terms()
}

// Judges a whole call of a series whose codes are its accounts. Under P, L and R that is the verdict for any codes.
pub fn judge_uncoded<'a>(
    terms: Terms,
    list: &AccountList<'a>,
    room: usize,
) -> Result<JudgedList<'a>, Refusal>
    ensures judged { outcome_of (λ j. j.total.0) result ≡ verdict (series_on terms (coded_by_account list.now)) room }
    ensures list { IfOk result (ListOf list.now.shorts.now terms.exercised.0 room) }
{
    let total = list_judging::judge_by_account(list, room)?;
    let call = Call {
        terms,
        shorts: list.shorts,
        total,
    };
    call.judge_terms()
}
