// Judging a list while its accounts rise, in the order of document 01's table: T, the first refusal that applies, or that an account does not rise.
#![tactic(auto)]

ghost use Rattle.std.specs.Prelude.{◌≡◌, IfOk};
ghost use Rattle.series.specs.Refusals.{positions_verdict, list_verdict_for};
ghost use Rattle.series.specs.Answers.{outcome_of};
ghost use Rattle.series.specs.declared.Method.{Method as Method·};
ghost use Rattle.rising_lists.specs.Judged.{judged_of, lengths_verdict, left_after, WalkTells, FallsOnly};

mod even_positions;

pub use even_positions::EvenPositions;
use series::{AccountList, Contracts, MOST_CONTRACTS, MOST_POSITIONS, Positions, Refusal};

// Takes the shorts of a position from what is left of the most contracts.
pub fn judge_shorts(count: u32, left: u32) -> Result<u32, Refusal>
    ensures { outcome_of (λ n. n) result ≡ left_after count left }
{
    // One test for 6 and 7, which costs less than two.
    if (count == 0) | (left < count) {
        return Err(if count == 0 {
            Refusal::NoShorts
        } else {
            Refusal::TotalTooLarge
        });
    }
    Ok(left - count)
}

// Judges the lengths of a list, also against room, the length of an output.
#[tactic(auto, using(std::proofs::lemmas::Bool::Decides::nat_tests), unfolding(series::specs::Refusals::first, series::specs::Refusals::list_rows, series::specs::Refusals::length_rows, series::specs::Refusals::room_rows))]
pub fn judge_lengths<'a>(
    positions: &Positions<'a>,
    room: usize,
) -> Result<EvenPositions<'a>, Refusal>
    ensures judged { outcome_of (λ _. tt) result ≡ lengths_verdict positions.now.codes.now positions.now.accounts.now positions.now.shorts.now room }
    ensures list { IfOk result (λ even. even.positions ≡ positions.now) }
{
    let number = positions.shorts.len();
    if positions.accounts.len() != number || positions.codes.len() != number {
        return Err(Refusal::LengthsDiffer);
    }
    if MOST_POSITIONS < number {
        return Err(Refusal::TooManyPositions);
    }
    if number == 0 {
        return Err(Refusal::NoPositions);
    }
    if room < number {
        return Err(Refusal::OutputTooShort);
    }
    Ok(EvenPositions {
        positions: *positions,
    })
}

// The list, which rises by its codes, each position in turn, while its accounts rise too. None: an account does not. Whether that or a refusal that stands later is answered is left open, since the verdict follows from either.
pub fn judge_rising(list: &EvenPositions) -> Result<Option<Contracts>, Refusal>
    ensures walk_tells { (m : Method·) → WalkTells result (positions_verdict m list.now.positions.codes.now list.now.positions.accounts.now list.now.positions.shorts.now) }
    ensures falls_only { FallsOnly result list.now.positions.codes.now list.now.positions.accounts.now }
{
    let positions = list.positions;
    let mut before = 0;
    let mut highest = 0;
    let mut left = MOST_CONTRACTS;
    for (i, &count) in positions.shorts.iter().enumerate() {
        let code = positions.codes[i];
        let account = positions.accounts[i];
        if code <= before {
            return Err(Refusal::OutOfOrder);
        }
        if account <= highest {
            return Ok(None);
        }
        left = judge_shorts(count, left)?;
        before = code;
        highest = account;
    }
    Ok(Some(Contracts(MOST_CONTRACTS - left)))
}

// Judges a list under P, L and R, also against room, the length of an output: it rises by its accounts, so that none falls without 5. The promise holds for W too, where every code is its account.
pub fn judge_by_account(list: &AccountList, room: usize) -> Result<Contracts, Refusal>
    ensures { (m : Method·) → judged_of result ≡ list_verdict_for m list.now.accounts.now list.now.accounts.now list.now.shorts.now room }
{
    let even = judge_lengths(&list.positions(), room)?;
    judge_rising(&even)?.ok_or(Refusal::OutOfOrder)
}
