// Contracts in millionths, a fixed-point number: the skip interval and the reserve.
ghost use Rattle.std.specs.Prelude.{◌≡◌, ◌+◌, ◌*◌, ◌/◌, ◌%◌, ◌^◌, ◌<◌, ◌≤◌};
ghost use Rattle.series.specs.Series.{MOST_CONTRACTS};
ghost use Rattle.series.specs.Wheel.{ONE, interval};

use series::Contracts;
use std::ops::Add;

// So many whole contracts and, below one contract, so many millionths.
#[derive(Clone, Copy, Debug, PartialEq, Eq)]
pub struct Millionths {
    contracts: u32,
    decimals: u32,
    ghost carried: { decimals < ONE },
}

impl Millionths {
    ghost use Rattle.allocation.specs.Millionths.{millionths};

    // One contract.
    const ONE: u32 = 1_000_000;

    // The reserve at first.
    pub const ZERO: Self = Millionths {
        contracts: 0,
        decimals: 0,
    };

    // The skip interval: T divided by T1 to six places, an exact half going up, less the increment, and zero where that is below zero.
    pub fn interval(total: Contracts, blocks: u32, increment: Contracts) -> Self
        requires { (total.0 ≤ MOST_CONTRACTS) × (0 < blocks) }
        ensures { millionths result ≡ interval increment.0 total.0 blocks }
    {
        let one = u64::from(Millionths::ONE);
        let wide = u64::from(blocks);
        let mean = (2 * (u64::from(total.0) * one) + wide) / (2 * wide);
        let left = mean.saturating_sub(u64::from(increment.0) * one);
        Millionths {
            contracts: (left / one) as u32,
            decimals: (left % one) as u32,
        }
    }

    // The whole contracts.
    pub fn whole(self) -> Contracts
        ensures { result.0 ≡ millionths self / ONE }
    {
        Contracts(self.contracts)
    }

    // The decimals.
    pub fn rest(self) -> Self
        ensures { millionths result ≡ millionths self % ONE }
    {
        Millionths {
            contracts: 0,
            decimals: self.decimals,
        }
    }
}

// The sum: decimals that make a contract are carried.
impl Add for Millionths {
    ghost use Rattle.allocation.specs.Millionths.{millionths};

    type Output = Self;

    ghost can_add = { λ a b. millionths a + millionths b < 2 ^ 32 * ONE };

    ghost add_gives = { λ a b sum. millionths sum ≡ millionths a + millionths b };

    fn add(self, other: Self) -> Self {
        let contracts = self.contracts + other.contracts;
        let decimals = self.decimals + other.decimals;
        if decimals < Millionths::ONE {
            return Millionths {
                contracts,
                decimals,
            };
        }
        Millionths {
            contracts: contracts + 1,
            decimals: decimals - Millionths::ONE,
        }
    }
}
