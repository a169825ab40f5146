// The wheel (W).
ghost use Rattle.std.specs.Prelude.{◌≡◌, ◌-◌, ◌*◌, ◌≤◌, ◌<◌, length};
ghost use Rattle.series.specs.Series.{MOST_CONTRACTS};
ghost use Rattle.series.specs.Places.{OnWheel};
ghost use Rattle.series.specs.Wheel.{wheel, blocks as blocksOf, blocks_used};
ghost use Rattle.allocation.specs.Stretch.{Assigned};
ghost use Rattle.allocation.specs.Blocks.{Increment, Ready, Skipped, BlocksFit, marks_from};

use crate::millionths::Millionths;
use crate::places::Cursor;
use judging::JudgedList;
use series::{Contracts, Place};

// Where the wheel stands, with its skip interval and the reserve.
#[derive(Clone, Copy, Debug, PartialEq, Eq)]
pub struct Wheel {
    pub cursor: Cursor,
    pub interval: Millionths,
    pub reserve: Millionths,
}

impl Wheel {
    // One skip: skip interval plus reserve, the whole part of it skipped, the decimals left over reserved.
    pub fn skip(mut self, shorts: &[u32]) -> Self
        requires { Ready shorts.now self }
        ensures { Skipped shorts.now self result }
    {
        let due = self.interval + self.reserve;
        self.cursor = self.cursor.skip(shorts, due.whole());
        self.reserve = due.rest();
        self
    }
}

// The blocks of S contracts: how many there are, and all of them have increment contracts but the last.
#[derive(Clone, Copy, Debug, PartialEq, Eq)]
pub struct Blocks {
    pub number: u32,
    pub increment: Contracts,
    pub last: Contracts,
}

impl Blocks {
    // T1 is S divided by the increment, rounded up. The last block has what the whole ones before it leave of S.
    fn of(exercised: Contracts, increment: Contracts) -> Self
        requires increment { Increment increment.0 }
        requires exercised { OnWheel MOST_CONTRACTS exercised.0 }
        ensures number { result.number ≡ blocksOf increment.0 exercised.0 }
        ensures increment { result.increment ≡ increment }
        ensures last { result.last.0 ≡ exercised.0 - increment.0 * (result.number - 1) }
    {
        let number = exercised.0.div_ceil(increment.0);
        let last = exercised.0 - increment.0 * (number - 1);
        Blocks {
            number,
            increment,
            last: Contracts(last),
        }
    }
}

// Assigns the blocks from the wheel's place on.
fn assign_blocks(shorts: &[u32], amounts: &mut [u32], mut wheel: Wheel, blocks: Blocks)
    requires { BlocksFit shorts.now amounts.old wheel blocks.number blocks.increment.0 blocks.last.0 }
    ensures { Assigned shorts.now amounts.old amounts.new (marks_from shorts.now wheel blocks.number blocks.increment.0 blocks.last.0) }
{
    for _block in 1..blocks.number {
        wheel.cursor = wheel.cursor.assign(shorts, amounts, blocks.increment);
        wheel = wheel.skip(shorts);
    }
    wheel.cursor.assign(shorts, amounts, blocks.last);
}

// Assigns S contracts from the starting place on; the number of blocks, 0 where S equals T.
pub fn assign(list: &JudgedList, increment: Contracts, draw: u32, amounts: &mut [u32]) -> u32
    requires room { length amounts.old ≡ length list.now.shorts.now }
    requires increment { Increment increment.0 }
    requires on_wheel { (list.now.exercised.0 ≡ list.now.total.0 → ⊥) → OnWheel list.now.total.0 draw }
    ensures value { result ≡ blocks_used increment.0 list.now.total.0 list.now.exercised.0 }
    ensures amounts_after { amounts.new ≡ wheel increment.0 list.now.shorts.now list.now.exercised.0 draw }
{
    let shorts = list.shorts;
    if list.exercised == list.total {
        lists::copy(shorts, amounts);
        return 0;
    }
    amounts.fill(0);
    let blocks = Blocks::of(list.exercised, increment);
    let first = Wheel {
        cursor: Cursor::seek(shorts, Place(draw)),
        interval: Millionths::interval(list.total, blocks.number, increment),
        reserve: Millionths::ZERO,
    };
    assign_blocks(shorts, amounts, first, blocks);
    blocks.number
}
