// Judging a list, in the order of document 01's table, with document 02's 19: T, or the first refusal that applies. While its accounts rise it is judged by the crate rising_lists, whose `judge_by_account` is handed on.
#![tactic(auto)]

mod chains;

ghost use Rattle.std.specs.Prelude.{◌<◌, ◌≡◌, length, get_or};
ghost use Rattle.series.specs.Refusals.{account_refused, list_verdict, positions_verdict, list_verdict_for};
ghost use Rattle.series.specs.Series.{ordered_by};
ghost use Rattle.series.specs.declared.Method.{Method as Method·};
ghost use Rattle.rising_lists.specs.Judged.{judged_of};
ghost use Rattle.rising_lists.specs.Earlier.{earlier};
ghost use Rattle.list_judging.specs.Chains.{Linked};

use crate::chains::Chains;
pub use rising_lists::judge_by_account;
use rising_lists::{EvenPositions, judge_lengths, judge_rising, judge_shorts};
use series::{Contracts, MOST_CONTRACTS, Method, Positions, Refusal};

// Whether the account of a position is 0 or stands earlier in the list.
#[tactic(auto, using(std::proofs::lemmas::Bool::Decides::nat_tests), unfolding(series::specs::Refusals::account_refused))]
fn is_account_refused(chains: &Chains, accounts: &[u32], position: usize) -> bool
    requires { (position < length accounts.now) × Linked accounts.now chains.now position }
    ensures { result ≡ account_refused Method·.Wheel (earlier accounts.now position) (get_or accounts.now position 0) }
{
    accounts[position] == 0 || chains.stands_earlier(accounts, position)
}

// The list under W, each position in turn, its accounts in any order: they are looked up in chains.
fn judge_chained(list: &EvenPositions) -> Result<Contracts, Refusal>
    ensures { judged_of result ≡ positions_verdict Method·.Wheel list.now.positions.codes.now list.now.positions.accounts.now list.now.positions.shorts.now }
{
    let positions = list.positions;
    let mut chains = Chains::new();
    let mut before = 0;
    let mut left = MOST_CONTRACTS;
    for (i, &count) in positions.shorts.iter().enumerate() {
        let code = positions.codes[i];
        let repeated = is_account_refused(&chains, positions.accounts, i);
        if code <= before {
            return Err(Refusal::OutOfOrder);
        }
        if repeated {
            return Err(Refusal::AccountRepeated);
        }
        left = judge_shorts(count, left)?;
        chains.link(positions.accounts, i);
        before = code;
    }
    Ok(Contracts(MOST_CONTRACTS - left))
}

// The list under W: it rises by its codes, and its accounts are looked up where they do not rise.
fn judge_by_code(positions: &Positions, room: usize) -> Result<Contracts, Refusal>
    ensures { judged_of result ≡ list_verdict_for Method·.Wheel positions.now.codes.now positions.now.accounts.now positions.now.shorts.now room }
{
    let list = judge_lengths(positions, room)?;
    match judge_rising(&list)? {
        Some(total) => Ok(total),
        None => judge_chained(&list),
    }
}

// Judges a list by its method, also against room, the length of an output.
pub fn judge(method: Method, positions: &Positions, room: usize) -> Result<Contracts, Refusal>
    ensures { judged_of result ≡ list_verdict_for method (ordered_by method positions.now.codes.now positions.now.accounts.now) positions.now.accounts.now positions.now.shorts.now room }
{
    match method {
        Method::Wheel => judge_by_code(positions, room),
        _ => judge_by_account(&positions.account_list(), room),
    }
}

// Judges a list alone, with no output, S or draw.
pub fn judge_list(method: Method, positions: &Positions) -> Result<Contracts, Refusal>
    ensures { judged_of result ≡ list_verdict method positions.now.codes.now positions.now.accounts.now positions.now.shorts.now }
{
    judge(method, positions, positions.shorts.len())
}
