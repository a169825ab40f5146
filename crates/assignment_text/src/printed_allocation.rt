// An allocation, as it is printed.
ghost use Rattle.std.specs.Prelude.{◌≤◌};
ghost use Rattle.series.specs.Places.{total as total_of};
ghost use Rattle.series.specs.Series.{MOST_CONTRACTS};
ghost use Rattle.assignment_text.specs.Lists.{Lists};

// The amounts of a judged list, beside its accounts and shorts.
#[derive(Clone, Copy)]
pub struct PrintedAllocation<'a> {
    pub accounts: &'a [u32],
    pub shorts: &'a [u32],
    pub amounts: &'a [u32],
    pub ghost lists: { Lists accounts.now shorts.now amounts.now },
    pub ghost small: { total_of shorts.now ≤ MOST_CONTRACTS },
}
