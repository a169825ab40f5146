// Pro rata (P): the allocating call by it.
#![tactic(auto)]

mod round_two;
mod rounds;

ghost use Rattle.std.specs.Prelude.{ℕ, List};
ghost use Rattle.series.specs.Answers.{answer_of};
ghost use Rattle.series.specs.Fair.{AllocatingCall};
ghost use Rattle.series.specs.Series.{Given};
ghost use Rattle.series.specs.declared.Method.{Method as Method·};
ghost use Rattle.series.specs.declared.Terms.{Terms as Terms·};

use series::{AccountList, Allocated, Contracts, DEFAULT_INCREMENT, Method, Refusal, terms_of};

// Assigns the exercised contracts pro rata, amounts in list order; or the first refusal that applies, and then amounts keeps its elements. No code is looked at, nor an increment: the promise holds whatever these are. The call by L and R (`allocate_started`) goes by the same steps: what it assigns and answers is another, and what they shared is in `judging`.
pub fn allocate(
    exercised: Contracts,
    draw: u32,
    list: &AccountList,
    amounts: &mut [u32],
) -> Result<Allocated, Refusal>
    ensures { (t : Terms·) (codes : List ℕ) → Given t Method·.ProRata exercised.0 draw → AllocatingCall (record { terms = t; codes = codes; accounts = list.now.accounts.now; shorts = list.now.shorts.now }) (answer_of result) amounts.old amounts.new }
{
    let terms = terms_of(
        Method::ProRata,
        exercised,
        draw,
        Contracts(DEFAULT_INCREMENT),
    );
    let judged = judging::judge_uncoded(terms, list, amounts.len())?;
    let remainder = rounds::assign(&judged, draw, &mut amounts[..judged.shorts.len()]);
    Ok(Allocated::ProRata {
        total: judged.total,
        remainder,
    })
}
