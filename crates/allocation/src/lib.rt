// The allocating call: the wheel, the starting number and the remainder draw in private modules, pro rata in a crate of its own.
#![tactic(auto)]

mod lottery;
mod millionths;
mod places;
mod wheel;

ghost use Rattle.std.specs.Prelude.{◌≡◌, ℕ, List};
ghost use Rattle.series.specs.Answers.{answer_of, series_of};
ghost use Rattle.series.specs.Fair.{AllocatingCall};
ghost use Rattle.series.specs.Series.{Given};
ghost use Rattle.series.specs.declared.Method.{Method as Method·};
ghost use Rattle.series.specs.declared.Terms.{Terms as Terms·};
ghost use Rattle.starts.specs.Starts.{method_for};

use series::{
    AccountList, Allocated, Contracts, DEFAULT_INCREMENT, Method, Refusal, Series, Terms, terms_of,
};
use starts::{StartBy, answer_for, start_by};

// The call by the wheel.
fn allocate_wheel(series: &Series, amounts: &mut [u32]) -> Result<Allocated, Refusal>
    requires { series.now.terms.method ≡ Method·.Wheel }
    ensures { AllocatingCall (series_of series.now) (answer_of result) amounts.old amounts.new }
{
    let list = judging::judge(series, amounts.len())?;
    let Terms {
        increment,
        draw,
        ..
    } = series.terms;
    let blocks = wheel::assign(&list, increment, draw, &mut amounts[..list.shorts.len()]);
    Ok(Allocated::Wheel {
        total: list.total,
        blocks,
    })
}

// The call by L or R, by terms that have this S and draw. No code is looked at, nor an increment: the promise holds whatever these are, so that nothing is asked of a series or its method. Handed the series, a call on ten positions takes 1.2 times as long.
fn allocate_started(
    by: StartBy,
    exercised: Contracts,
    draw: u32,
    list: &AccountList,
    amounts: &mut [u32],
) -> Result<Allocated, Refusal>
    ensures { (t : Terms·) (codes : List ℕ) → Given t (method_for by) exercised.0 draw → AllocatingCall (record { terms = t; codes = codes; accounts = list.now.accounts.now; shorts = list.now.shorts.now }) (answer_of result) amounts.old amounts.new }
{
    let terms = terms_of(
        Method::from(by),
        exercised,
        draw,
        Contracts(DEFAULT_INCREMENT),
    );
    let judged = judging::judge_uncoded(terms, list, amounts.len())?;
    let start = lottery::assign_by_draw(by, &judged, draw, &mut amounts[..judged.shorts.len()]);
    Ok(answer_for(by, judged.total, start))
}

// Assigns the exercised contracts to the positions, amounts in list order; or the first refusal that applies, and then amounts keeps its elements.
pub fn allocate(series: &Series, amounts: &mut [u32]) -> Result<Allocated, Refusal>
    ensures { AllocatingCall (series_of series.now) (answer_of result) amounts.old amounts.new }
{
    let terms = series.terms;
    let positions = series.positions;
    match terms.method {
        Method::Wheel => allocate_wheel(series, amounts),
        Method::ProRata => pro_rata::allocate(
            terms.exercised,
            terms.draw,
            &positions.account_list(),
            amounts,
        ),
        Method::Lottery | Method::RemainderDraw => allocate_started(
            start_by(terms.method),
            terms.exercised,
            terms.draw,
            &positions.account_list(),
            amounts,
        ),
    }
}
