// Merged lists (document 02): two lists of one series, both rising by account, into one.
#![tactic(auto)]

ghost use Rattle.std.specs.Prelude.{◌≡◌, ◌≤◌, List, length};
ghost use Rattle.series.specs.Results.{value};
ghost use Rattle.series.specs.Outputs.{lent};
ghost use Rattle.series.specs.Places.{total as total·};
ghost use Rattle.series.specs.Series.{MOST_POSITIONS as MOST_POSITIONS·};
ghost use Rattle.series.specs.Refusals.{first as first·};
ghost use Rattle.rising_lists.specs.Judged.{judged_of};
ghost use Rattle.merging.specs.Merging.{Position, account_list_of, accounts_of, shorts_of, merged, merged_of, judged_alone, merged_rows, handed, judged_merged, merging_of, ListsMerged, Merges, MergingCall};
ghost use Rattle.merging.specs.Walks.{judged_both, BothBounded, Fitting, FittingFrom, PutFrom};

use series::{AccountList, Contracts, MOST_CONTRACTS, MOST_POSITIONS, Method, Refusal};

// What merging hands back: the number of positions of the merged list, and its T.
#[derive(Clone, Copy, Debug, PartialEq, Eq)]
pub struct Merged {
    pub positions: usize,
    pub total: Contracts,
}

// How many positions the merged list has, whatever the shorts. It walks as `write_merged` does, by the same law of a step; one function for both would have each promise twice, and would be lent shorts to count accounts.
fn count_merged(first: &[u32], second: &[u32]) -> usize
    requires { (length first.now ≤ MOST_POSITIONS·) × (length second.now ≤ MOST_POSITIONS·) }
    ensures { (ps qs : List Position) → accounts_of ps ≡ first.now → accounts_of qs ≡ second.now → result ≡ length (merged ps qs) }
{
    let mut i = 0;
    let mut j = 0;
    let mut n = 0;
    // A `while`: it goes through two lists, each by its own index.
    while i < first.len() && j < second.len() {
        let account = first[i];
        let other = second[j];
        n += 1;
        if account < other {
            i += 1;
        } else if other < account {
            j += 1;
        } else {
            i += 1;
            j += 1;
        }
    }
    n + (first.len() - i) + (second.len() - j)
}

// Puts what is left of a list from one index on into both outputs from another on. The outputs are two lists here as in the call for C: in a struct of loans each promise would speak of what is lent behind it, and not of two lists.
fn put_rest(list: &AccountList, begin: usize, at: usize, accounts: &mut [u32], shorts: &mut [u32])
    requires { FittingFrom (account_list_of list.now) begin at accounts.old shorts.old }
    ensures { PutFrom (account_list_of list.now) begin at (lent accounts.old accounts.new) (lent shorts.old shorts.new) }
{
    let end = at + (list.accounts.len() - begin);
    lists::copy(&list.accounts[begin..], &mut accounts[at..end]);
    lists::copy(&list.shorts[begin..], &mut shorts[at..end]);
}

// Writes the merged list: position by position while both lists have one, then what is left of one of them.
fn write_merged(first: &AccountList, second: &AccountList, accounts: &mut [u32], shorts: &mut [u32])
    requires { Fitting (account_list_of first.now) (account_list_of second.now) accounts.old shorts.old }
    ensures { ListsMerged (value (merged_of (account_list_of first.now) (account_list_of second.now)))
        (lent accounts.old accounts.new) (lent shorts.old shorts.new) }
{
    let mut i = 0;
    let mut j = 0;
    let mut n = 0;
    // A `while`: it goes through two lists, each by its own index.
    while i < first.accounts.len() && j < second.accounts.len() {
        let account = first.accounts[i];
        let other = second.accounts[j];
        let at = n;
        n += 1;
        if account < other {
            accounts[at] = account;
            shorts[at] = first.shorts[i];
            i += 1;
        } else if other < account {
            accounts[at] = other;
            shorts[at] = second.shorts[j];
            j += 1;
        } else {
            accounts[at] = account;
            shorts[at] = first.shorts[i] + second.shorts[j];
            i += 1;
            j += 1;
        }
    }
    let next = n + (first.accounts.len() - i);
    put_rest(first, i, n, accounts, shorts);
    put_rest(second, j, next, accounts, shorts);
}

// Judges one of the lists. P stands for every method that goes by accounts: all judge it alike.
fn judge_alone(list: &AccountList) -> Result<Contracts, Refusal>
    ensures { judged_of result ≡ judged_alone (account_list_of list.now) }
{
    list_judging::judge_list(Method::ProRata, &list.positions())
}

// Judges both lists: the sum of their totals, or the first refusal.
fn judge_both(first: &AccountList, second: &AccountList) -> Result<Contracts, Refusal>
    ensures { judged_of result ≡ judged_both (account_list_of first.now) (account_list_of second.now) }
{
    let total = judge_alone(first)?;
    let more = judge_alone(second)?;
    Ok(Contracts(total.0 + more.0))
}

// Judges the merged list by its number of positions and its T, and then against the lengths of both outputs.
#[tactic(auto, using(std::proofs::lemmas::Bool::Decides::nat_tests), unfolding(series::specs::Refusals::first, crate::specs::Merging::merged_rows, crate::specs::Merging::handed))]
fn judge_merged(
    positions: usize,
    total: Contracts,
    accounts_room: usize,
    shorts_room: usize,
) -> Result<Merged, Refusal>
    ensures { (ps : List Position) → positions ≡ length ps → total.0 ≡ total· (shorts_of ps) → merging_of result ≡ handed (first· (merged_rows ps accounts_room shorts_room) ps) }
{
    if MOST_POSITIONS < positions {
        return Err(Refusal::TooManyPositions);
    }
    if MOST_CONTRACTS < total.0 {
        return Err(Refusal::TotalTooLarge);
    }
    if accounts_room < positions || shorts_room < positions {
        return Err(Refusal::OutputTooShort);
    }
    Ok(Merged { positions, total })
}

// Merges two lists that are judged; total is the sum of their totals. Nothing is written before everything that can refuse has been tried.
fn merge_judged(
    total: Contracts,
    first: &AccountList,
    second: &AccountList,
    accounts: &mut [u32],
    shorts: &mut [u32],
) -> Result<Merged, Refusal>
    requires { BothBounded (account_list_of first.now) (account_list_of second.now) total.0 }
    ensures { Merges (judged_merged (account_list_of first.now) (account_list_of second.now) (length accounts.old) (length shorts.old))
        (merging_of result) (lent accounts.old accounts.new) (lent shorts.old shorts.new) }
{
    let positions = count_merged(first.accounts, second.accounts);
    let merged = judge_merged(positions, total, accounts.len(), shorts.len())?;
    write_merged(first, second, accounts, shorts);
    Ok(merged)
}

// Merges two lists of one series that rise by account, an account's shorts being added where both have it; or the first refusal that applies, and then both outputs keep their elements.
pub fn merge(
    first: &AccountList,
    second: &AccountList,
    accounts: &mut [u32],
    shorts: &mut [u32],
) -> Result<Merged, Refusal>
    ensures { MergingCall (account_list_of first.now) (account_list_of second.now)
        (merging_of result) (lent accounts.old accounts.new) (lent shorts.old shorts.new) }
{
    let total = judge_both(first, second)?;
    merge_judged(total, first, second, accounts, shorts)
}
