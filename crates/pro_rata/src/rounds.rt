// The two rounds: round one assigns whole parts, round two one contract to a position by decimal parts.
ghost use Rattle.std.specs.Prelude.{◌≡◌, ◌+◌, ◌*◌, ◌^◌, ◌≤◌, ◌<◌, length};
ghost use Rattle.series.specs.Series.{MOST_CONTRACTS, MOST_POSITIONS};
ghost use Rattle.series.specs.ProRata.{percentage, whole_part, decimal_part, remainder, round_two, pro_rata};
ghost use Rattle.series.specs.CutOff.{at_least, cut_off, by_cut_off};
ghost use Rattle.pro_rata.specs.Rounds.{Exercised, units, HighLow, RoundOneDone, at, Decimals, counted, cut_off_of, RoomForOne, Servable, added};

use crate::round_two::RoundTwo;
use judging::JudgedList;
use series::{Contracts, MOST_POSITIONS};

// The exercise percentage in units of the 17th decimal: high * 10^12 + low.
#[derive(Clone, Copy, Debug, PartialEq, Eq)]
pub struct Percentage {
    high: u64,
    low: u64,
}

// A position's assignment amount: its whole part, and its decimal part in units of the 5th decimal.
#[derive(Clone, Copy, Debug, PartialEq, Eq)]
pub struct Assignment {
    whole: u32,
    decimal: u32,
}

impl Percentage {
    // S divided by T, later digits dropped.
    pub fn of(exercised: Contracts, total: Contracts) -> Percentage
        requires { Exercised exercised.0 total.0 }
        ensures { (units result ≡ percentage exercised.0 total.0) × HighLow result }
    {
        let s = u64::from(exercised.0) * 100_000_000;
        let t = u64::from(total.0);
        let units = s / t * 1_000_000_000 + s % t * 1_000_000_000 / t;
        Percentage {
            high: units / 1_000_000_000_000,
            low: units % 1_000_000_000_000,
        }
    }

    // The products stay below 2^64: shorts * low is below 10^19.
    pub fn assignment(self, shorts: Contracts) -> Assignment
        requires { (shorts.0 ≤ MOST_CONTRACTS) × HighLow self }
        ensures { (result.whole ≡ whole_part (units self) shorts.0) × (result.decimal ≡ decimal_part (units self) shorts.0) }
    {
        let h = u64::from(shorts.0);
        let amount = h * self.high + h * self.low / 1_000_000_000_000;
        Assignment {
            whole: (amount / 100_000) as u32,
            decimal: (amount % 100_000) as u32,
        }
    }
}

// Round one: writes each position's whole part and its decimal part, and hands back the contracts assigned.
pub fn round_one(list: &JudgedList, amounts: &mut [u32], parts: &mut [u32]) -> Contracts
    requires { (length amounts.old ≡ length list.now.shorts.now) × (length parts.old ≡ length list.now.shorts.now) }
    ensures { RoundOneDone list.now.shorts.now list.now.exercised.0 result.0 amounts.new parts.new }
{
    let percentage = Percentage::of(list.exercised, list.total);
    let mut sum = 0u32;
    for (i, &count) in list.shorts.iter().enumerate() {
        let assignment = percentage.assignment(Contracts(count));
        amounts[i] = assignment.whole;
        parts[i] = assignment.decimal;
        sum += assignment.whole;
    }
    Contracts(sum)
}

// How many positions have the decimal part x or a larger one.
pub fn at_least(parts: &[u32], x: u32) -> u32
    requires { length parts.now ≤ MOST_POSITIONS }
    ensures { result ≡ at_least (at parts.now) x (length parts.now) }
{
    let mut count = 0u32;
    for &part in parts {
        if x <= part {
            count += 1;
        }
    }
    count
}

// The cut-off: the decimal part at which the remainder runs out, how many positions have a larger one, and how many this one.
#[derive(Clone, Copy, Debug, PartialEq, Eq)]
pub struct Cutoff {
    cut: u32,
    larger: u32,
    tied: u32,
}

// Bisects the decimal parts: at least `left` positions have `low` or more, and fewer, `larger`, have `low + width` or more.
pub fn cut_off(parts: &[u32], remainder: Contracts) -> Option<Cutoff>
    requires { Decimals parts.now remainder.0 }
    ensures { cut_off_of result ≡ counted (at parts.now) (length parts.now) (cut_off (at parts.now) (length parts.now) remainder.0) }
{
    let left = remainder.0;
    if left == 0 {
        return None;
    }
    let mut low = 0u32;
    let mut width = 100_000u32;
    let mut enough = parts.len() as u32;
    let mut larger = 0u32;
    // A `while`: it halves a width, and goes through no list.
    while 1 < width {
        let half = width / 2;
        let count = at_least(parts, low + half);
        if left <= count {
            low += half;
            width -= half;
            enough = count;
        } else {
            width = half;
            larger = count;
        }
    }
    Some(Cutoff {
        cut: low,
        larger,
        tied: enough - larger,
    })
}

// One contract more to each position above the cut-off, and to the tied ones in turn.
pub fn serve(parts: &[u32], round: RoundTwo, amounts: &mut [u32])
    requires { Servable parts.now amounts.old round }
    ensures { amounts.new ≡ added amounts.old (by_cut_off (at parts.now) round.cut round.first round.tied round.served) }
{
    let cut = round.cut;
    let mut number = 0u32;
    for (i, &part) in parts.iter().enumerate() {
        amounts[i] += round.contract(part, number).0;
        if part == cut {
            number += 1;
        }
    }
}

// Round two: one contract to a position, from the largest decimal part to the smallest, the draw deciding a tie.
pub fn round_two(parts: &[u32], remainder: Contracts, draw: u32, amounts: &mut [u32])
    requires { Decimals parts.now remainder.0 × RoomForOne parts.now amounts.old }
    ensures { amounts.new ≡ added amounts.old (round_two (at parts.now) (length parts.now) draw remainder.0) }
{
    let Some(Cutoff { cut, larger, tied }) = cut_off(parts, remainder) else {
        return;
    };
    let round = RoundTwo {
        cut,
        tied,
        first: draw % tied,
        served: remainder.0 - larger,
    };
    serve(parts, round, amounts);
}

// Both rounds, with room for the decimal parts.
pub fn both_rounds(
    list: &JudgedList,
    draw: u32,
    amounts: &mut [u32],
    parts: &mut [u32],
) -> Contracts
    requires { (length amounts.old ≡ length list.now.shorts.now) × (length parts.old ≡ length list.now.shorts.now) }
    ensures handed { result.0 ≡ remainder list.now.shorts.now list.now.exercised.0 }
    ensures written { amounts.new ≡ pro_rata list.now.shorts.now list.now.exercised.0 draw }
{
    let assigned = round_one(list, amounts, parts);
    let remainder = Contracts(list.exercised.0 - assigned.0);
    round_two(parts, remainder, draw, amounts);
    remainder
}

// Both rounds, with room for N decimal parts: an array, as the project has no heap.
fn with_room<const N: usize>(list: &JudgedList, draw: u32, amounts: &mut [u32]) -> Contracts
    requires { (length amounts.old ≡ length list.now.shorts.now) × (length list.now.shorts.now ≤ N) × (N * 4 < 2 ^ 63) }
    ensures handed { result.0 ≡ remainder list.now.shorts.now list.now.exercised.0 }
    ensures written { amounts.new ≡ pro_rata list.now.shorts.now list.now.exercised.0 draw }
{
    let mut parts = [0u32; N];
    both_rounds(list, draw, amounts, &mut parts[..list.shorts.len()])
}

// The amounts under pro rata, in list order; hands back the contracts of round two. A short list has a short room for its decimal parts.
pub fn assign(list: &JudgedList, draw: u32, amounts: &mut [u32]) -> Contracts
    requires { length amounts.old ≡ length list.now.shorts.now }
    ensures handed { result.0 ≡ remainder list.now.shorts.now list.now.exercised.0 }
    ensures written { amounts.new ≡ pro_rata list.now.shorts.now list.now.exercised.0 draw }
{
    if list.shorts.len() <= 128 {
        return with_room::<128>(list, draw, amounts);
    }
    with_room::<MOST_POSITIONS>(list, draw, amounts)
}
