// The starting number (L) and the remainder draw (R): one run from a starting place.
ghost use Rattle.std.specs.Prelude.{◌≡◌, false, length, ◌≤◌, ◌<◌};
ghost use Rattle.series.specs.Series.{MOST_CONTRACTS};
ghost use Rattle.series.specs.Places.{total as total_of, OnWheel};
ghost use Rattle.series.specs.Lottery.{lottery, unstarted, lottery_amounts, start_used};
ghost use Rattle.starts.specs.Starts.{place_by, Leads, start_of};

use crate::places::Cursor;
use judging::JudgedList;
use series::{Contracts, Place};
use starts::StartBy;

// The starting place that a draw leads to.
fn starting_place(by: StartBy, total: Contracts, draw: u32) -> Place
    requires { (0 < total.0) × (total.0 ≤ MOST_CONTRACTS) × Leads by draw }
    ensures { result.0 ≡ place_by by total.0 draw }
{
    match by {
        StartBy::TenThousandths => {
            Place((u64::from(draw) * u64::from(total.0)).div_ceil(10_000) as u32)
        }
        StartBy::Remainder => Place(draw % total.0 + 1),
    }
}

// Assigns S contracts from the starting place on. Inlined into the whole call, L and R take up to 1.3 times as long: the compiler then takes these loops for rare.
#[inline(never)]
fn assign(list: &JudgedList, start: Place, amounts: &mut [u32])
    requires room { length amounts.old ≡ length list.now.shorts.now }
    requires on_wheel { OnWheel (total_of list.now.shorts.now) start.0 }
    ensures { amounts.new ≡ lottery list.now.shorts.now list.now.exercised.0 start.0 }
{
    amounts.fill(0);
    Cursor::seek(list.shorts, start).assign(list.shorts, amounts, list.exercised);
}

// Assigns S contracts: each position whole where S equals T; then S to a list of one position; else from the place that the draw leads to.
pub fn assign_by_draw(
    by: StartBy,
    list: &JudgedList,
    draw: u32,
    amounts: &mut [u32],
) -> Option<Place>
    requires room { length amounts.old ≡ length list.now.shorts.now }
    requires leads { unstarted list.now.total.0 (length list.now.shorts.now) list.now.exercised.0 ≡ false → Leads by draw }
    ensures result_value { start_of result ≡ start_used list.now.shorts.now list.now.exercised.0 (place_by by list.now.total.0 draw) }
    ensures amounts_after { amounts.new ≡ lottery_amounts list.now.shorts.now list.now.exercised.0 (place_by by list.now.total.0 draw) }
{
    let shorts = list.shorts;
    if list.exercised == list.total {
        lists::copy(shorts, amounts);
        return None;
    }
    if shorts.len() == 1 {
        amounts[0] = list.exercised.0;
        return None;
    }
    let start = starting_place(by, list.total, draw);
    assign(list, start, amounts);
    Some(start)
}
