// Two lists of one series merged into one.
ghost use Rattle.std.specs.Prelude.{length};
ghost use Rattle.series.specs.Outputs.{lent};
ghost use Rattle.merging.specs.Merging.{list_of, merge_into};
ghost use Rattle.dilbreth.specs.Exports.{HandsMerged};

use series::AccountList;

// Merges two lists that rise by account, and hands back the number of positions and T.
#[unsafe(no_mangle)]
pub extern "C" fn dilbreth_merge(
    first_accounts: &[u32],
    first_shorts: &[u32],
    second_accounts: &[u32],
    second_shorts: &[u32],
    accounts: &mut [u32],
    shorts: &mut [u32],
    positions: &mut usize,
    total: &mut u32,
) -> u32
    ensures { HandsMerged (merge_into (list_of first_accounts.now first_shorts.now) (list_of second_accounts.now second_shorts.now) (length accounts.old) (length shorts.old)) result
        (lent accounts.old accounts.new) (lent shorts.old shorts.new) (lent positions.old positions.new) (lent total.old total.new) }
{
    let first = AccountList {
        accounts: first_accounts,
        shorts: first_shorts,
    };
    let second = AccountList {
        accounts: second_accounts,
        shorts: second_shorts,
    };
    match merging::merge(&first, &second, accounts, shorts) {
        Ok(merged) => {
            *positions = merged.positions;
            *total = merged.total.0;
            0
        }
        Err(refusal) => u32::from(refusal),
    }
}
