// A judged list, as the methods take it.
ghost use Rattle.std.specs.Prelude.{◌≡◌, ◌≤◌, ◌<◌, length};
ghost use Rattle.series.specs.Series.{MOST_CONTRACTS, MOST_POSITIONS};
ghost use Rattle.series.specs.Places.{total as total_of};

use series::Contracts;

// The shorts of a call that meets no refusal, with T and S. That the amounts are as many stands beside it: they are lent apart, and written while the list is read.
#[derive(Clone, Copy)]
pub struct JudgedList<'a> {
    pub shorts: &'a [u32],
    pub total: Contracts,
    pub exercised: Contracts,
    pub ghost few: { length shorts.now ≤ MOST_POSITIONS },
    pub ghost sum: { total.0 ≡ total_of shorts.now },
    pub ghost small: { total_of shorts.now ≤ MOST_CONTRACTS },
    pub ghost some: { 0 < exercised.0 },
    pub ghost most: { exercised.0 ≤ total_of shorts.now },
}
