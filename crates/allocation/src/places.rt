// Runs over the contracts of a list, a position at a time. What is asked of a place (`OnWheel`), of a list with its amounts (`Small`) or of one with a cursor (`Ahead`) has another T or bound at each call, so that no type has it.
ghost use Rattle.std.specs.Prelude.{◌≡◌, true, ◌+◌, ◌*◌, ◌≤◌, get_or};
ghost use Rattle.series.specs.Series.{MOST_CONTRACTS};
ghost use Rattle.series.specs.Places.{total, run, OnWheel};
ghost use Rattle.allocation.specs.Stretch.{Ends, Grown, Small, Stands, Ahead, Assigned, place_of};

use series::{Contracts, Place};

// A place on the wheel: the position that has it, and how many of the position's contracts stand before it.
#[derive(Clone, Copy, Debug, PartialEq, Eq)]
pub struct Cursor {
    pub at: usize,
    pub passed: Contracts,
}

// Goes over count contracts, after the first passed ones of the list, as far as its end, and assigns them where ASSIGNS: the cursor after them, or how many are left. ASSIGNS is no argument: each step would test it.
fn walk<const ASSIGNS: bool>(
    shorts: &[u32],
    amounts: &mut [u32],
    passed: Contracts,
    count: Contracts,
) -> Result<Cursor, Contracts>
    requires passed { passed.0 ≤ get_or shorts.now 0 0 }
    requires small { ASSIGNS ≡ true → Small shorts.now amounts.old (2 * MOST_CONTRACTS) }
    ensures ends { Ends shorts.now (passed.0 + count.0) result }
    ensures grown { ASSIGNS ≡ true → Grown shorts.now amounts.old amounts.new passed.0 (passed.0 + count.0) }
{
    let mut passed = passed.0;
    let mut left = count.0;
    for (at, &short) in shorts.iter().enumerate() {
        let free = short - passed;
        if ASSIGNS {
            amounts[at] += left.min(free);
        }
        if left < free {
            return Ok(Cursor {
                at,
                passed: Contracts(passed + left),
            });
        }
        left -= free;
        passed = 0;
    }
    Err(Contracts(left))
}

// Goes over count contracts from the cursor on, to the end of the list and then in the part from the top, up to the position it began in, and assigns them where ASSIGNS: the cursor after them.
fn run<const ASSIGNS: bool>(
    shorts: &[u32],
    amounts: &mut [u32],
    cursor: Cursor,
    count: Contracts,
) -> Cursor
    requires small { ASSIGNS ≡ true → Small shorts.now amounts.old MOST_CONTRACTS }
    requires ahead { Ahead shorts.now cursor count.0 }
    ensures stands { Stands shorts.now count.0 (place_of shorts.now cursor) result }
    ensures assigned { ASSIGNS ≡ true → Assigned shorts.now amounts.old amounts.new (run (total shorts.now) count.0 (place_of shorts.now cursor)) }
{
    let Cursor { at, passed } = cursor;
    // Most runs end in the position they begin in: without this branch W takes up to 1.27 times as long.
    if count.0 < shorts[at] - passed.0 {
        if ASSIGNS {
            amounts[at] += count.0;
        }
        return Cursor {
            at,
            passed: Contracts(passed.0 + count.0),
        };
    }
    // Where nothing is assigned, amounts is empty and so are its parts.
    let start = at.min(amounts.len());
    match walk::<ASSIGNS>(&shorts[at..], &mut amounts[start..], passed, count) {
        Ok(after) => Cursor {
            at: at + after.at,
            ..after
        },
        Err(left) => {
            let end = (at + 1).min(amounts.len());
            walk::<ASSIGNS>(&shorts[..=at], &mut amounts[..end], Contracts(0), left).unwrap()
        }
    }
}

impl Cursor {
    // The cursor at a place.
    pub fn seek(shorts: &[u32], place: Place) -> Self
        requires { OnWheel (total shorts.now) place.0 }
        ensures { Stands shorts.now 0 place.0 result }
    {
        walk::<false>(shorts, &mut [], Contracts(0), Contracts(place.0 - 1)).unwrap()
    }

    // Assigns count contracts from the cursor on; the cursor after them.
    pub fn assign(self, shorts: &[u32], amounts: &mut [u32], count: Contracts) -> Self
        requires small { Small shorts.now amounts.old MOST_CONTRACTS }
        requires ahead { Ahead shorts.now self count.0 }
        ensures stands { Stands shorts.now count.0 (place_of shorts.now self) result }
        ensures assigned { Assigned shorts.now amounts.old amounts.new (run (total shorts.now) count.0 (place_of shorts.now self)) }
    {
        run::<true>(shorts, amounts, self, count)
    }

    // The cursor count contracts further on.
    pub fn skip(self, shorts: &[u32], count: Contracts) -> Self
        requires { Ahead shorts.now self count.0 }
        ensures { Stands shorts.now count.0 (place_of shorts.now self) result }
    {
        run::<false>(shorts, &mut [], self, count)
    }
}
