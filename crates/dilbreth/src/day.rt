// The day's activity before assignment.
ghost use Rattle.std.specs.Prelude.{◌≡◌};
ghost use Rattle.series.specs.Outputs.{lent};
ghost use Rattle.activity_rules.specs.Activity.{investor_of, market_maker_of, investor_day, market_maker_day};
ghost use Rattle.dilbreth.specs.Days.{day_by, Processes};
ghost use Rattle.dilbreth.specs.Exports.{Hands};

use activity_rules::{Day, Investor, MarketMaker, Transactions};
use series::Contracts;

// The kind of day by its number in C: 0 is ordinary, any other the final trading day. No From: an impl would stand beside Day, which knows no numbers of C.
fn day_by(number: u32) -> Day
    ensures { result ≡ day_by number }
{
    if number == 0 {
        return Day::Ordinary;
    }
    Day::Final
}

// An investor's day: the limit, and long and short after it.
#[unsafe(no_mangle)]
pub extern "C" fn dilbreth_process_investor(
    day: u32,
    opening_long: u32,
    opening_short: u32,
    opening_purchases: u32,
    opening_sales: u32,
    closing_purchases: u32,
    closing_sales: u32,
    exercised: u32,
    limit: &mut u32,
    long_after: &mut u32,
    short_after: &mut u32,
) -> u32
    ensures { Processes (investor_day (day_by day) (investor_of opening_long opening_short opening_purchases opening_sales closing_purchases closing_sales exercised)) result (lent limit.old limit.new) (lent long_after.old long_after.new) (lent short_after.old short_after.new) }
{
    let investor = Investor {
        long: Contracts(opening_long),
        short: Contracts(opening_short),
        purchases: Transactions {
            opening: Contracts(opening_purchases),
            closing: Contracts(closing_purchases),
        },
        sales: Transactions {
            opening: Contracts(opening_sales),
            closing: Contracts(closing_sales),
        },
        exercised: Contracts(exercised),
    };
    match activity::process_investor(day_by(day), investor) {
        Ok(after) => {
            *limit = after.limit.0;
            *long_after = after.long.0;
            *short_after = after.short.0;
            0
        }
        Err(refusal) => u32::from(refusal),
    }
}

// A market-maker's day: the limit.
#[unsafe(no_mangle)]
pub extern "C" fn dilbreth_process_market_maker(
    day: u32,
    opening_long: u32,
    opening_short: u32,
    purchases: u32,
    sales: u32,
    limit: &mut u32,
) -> u32
    ensures { Hands (market_maker_day (day_by day) (market_maker_of opening_long opening_short purchases sales)) result (lent limit.old limit.new) }
{
    let maker = MarketMaker {
        long: Contracts(opening_long),
        short: Contracts(opening_short),
        purchases: Contracts(purchases),
        sales: Contracts(sales),
    };
    match activity::process_market_maker(day_by(day), maker) {
        Ok(most) => {
            *limit = most.0;
            0
        }
        Err(refusal) => u32::from(refusal),
    }
}
