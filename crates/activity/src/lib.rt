// The day's activity before assignment: how many contracts an investor or a market-maker may exercise on a day, and what an investor is long and short after it, by the sequence of source document 003.
#![tactic(auto)]

ghost use Rattle.std.specs.Prelude.{◌≡◌, ◌-◌};
ghost use Rattle.activity_rules.specs.Activity.{ordinary_day, final_day, after_day, market_maker_limit, any_above, investor_counts, market_maker_counts, closes_above_short, investor_day, market_maker_day};
ghost use Rattle.activity_rules.specs.Parts.{Counted};
ghost use Rattle.activity.specs.Answers.{investor_answer, market_maker_answer};

mod counted_investor;

pub use activity_rules::{AfterDay, Day, Investor, MarketMaker, Transactions};
use counted_investor::CountedInvestor;
use series::{Contracts, MOST_CONTRACTS, Refusal};

// Whether any of the counts is above 10,000,000.
fn any_above(counts: &[u32]) -> bool
    ensures { result ≡ any_above counts.now }
{
    counts.iter().any(|&count| MOST_CONTRACTS < count)
}

// What a exceeds b by, or zero.
fn excess(a: Contracts, b: Contracts) -> Contracts
    ensures { result.0 ≡ a.0 - b.0 }
{
    Contracts(a.0.saturating_sub(b.0))
}

// An ordinary day: opening purchases, opening sales and closing purchases come first, then exercises, then closing sales.
fn ordinary_day(counted: CountedInvestor) -> AfterDay
    ensures { result ≡ ordinary_day counted.investor }
{
    let investor = counted.investor;
    let long_side = investor.long.0 + investor.purchases.opening.0;
    let short_side = investor.short.0 + investor.sales.opening.0;
    let limit = Contracts(long_side);
    let short = excess(Contracts(short_side), investor.purchases.closing);
    let remaining = excess(limit, investor.exercised);
    let long = excess(remaining, investor.sales.closing);
    let as_opening = excess(investor.sales.closing, remaining);
    let short_after = short.0 + as_opening.0;
    AfterDay {
        limit,
        long,
        short: Contracts(short_after),
    }
}

// The final trading day: all trades come first, then exercises.
fn final_day(counted: CountedInvestor) -> AfterDay
    ensures { result ≡ final_day counted.investor }
{
    let investor = counted.investor;
    let long_side = investor.long.0 + investor.purchases.opening.0 + investor.purchases.closing.0;
    let short_side = investor.short.0 + investor.sales.opening.0 + investor.sales.closing.0;
    let limit = excess(Contracts(long_side), Contracts(short_side));
    AfterDay {
        limit,
        long: excess(limit, investor.exercised),
        short: excess(Contracts(short_side), Contracts(long_side)),
    }
}

// What an investor gets where he meets no refusal.
fn after_day(day: Day, counted: CountedInvestor) -> AfterDay
    ensures { result ≡ after_day day counted.investor }
{
    match day {
        Day::Ordinary => ordinary_day(counted),
        Day::Final => final_day(counted),
    }
}

// Whether any of the counts that an investor gives is above 10,000,000.
fn investor_above(investor: Investor) -> bool
    ensures { result ≡ any_above (investor_counts investor) }
{
    let seven = [
        investor.long.0,
        investor.short.0,
        investor.purchases.opening.0,
        investor.sales.opening.0,
        investor.purchases.closing.0,
        investor.sales.closing.0,
        investor.exercised.0,
    ];
    any_above(&seven)
}

// Whether closing purchases are above opening short plus opening sales as given.
fn closes_above_short(counted: CountedInvestor) -> bool
    ensures { result ≡ closes_above_short counted.investor }
{
    let investor = counted.investor;
    investor.short.0 + investor.sales.opening.0 < investor.purchases.closing.0
}

// An investor's day: 16, then 17, then 18, else what he gets.
pub fn process_investor(day: Day, investor: Investor) -> Result<AfterDay, Refusal>
    ensures { investor_answer result ≡ investor_day day investor }
{
    if investor_above(investor) {
        return Err(Refusal::CountTooLarge);
    }
    let counted = CountedInvestor { investor };
    if closes_above_short(counted) {
        return Err(Refusal::ClosingPurchasesAboveShort);
    }
    let after = after_day(day, counted);
    if after.limit.0 < investor.exercised.0 {
        return Err(Refusal::ExercisedAboveLimit);
    }
    Ok(after)
}

// What a market-maker gets where he meets no refusal. No other function asks for his counts judged, so no type says it.
fn market_maker_limit(day: Day, maker: MarketMaker) -> Contracts
    requires { Counted (market_maker_counts maker) }
    ensures { result.0 ≡ market_maker_limit day maker }
{
    let long_side = maker.long.0 + maker.purchases.0;
    let short_side = maker.short.0 + maker.sales.0;
    match day {
        Day::Ordinary => Contracts(long_side),
        Day::Final => excess(Contracts(long_side), Contracts(short_side)),
    }
}

// Whether any of the counts that a market-maker gives is above 10,000,000.
fn market_maker_above(maker: MarketMaker) -> bool
    ensures { result ≡ any_above (market_maker_counts maker) }
{
    let four = [
        maker.long.0,
        maker.short.0,
        maker.purchases.0,
        maker.sales.0,
    ];
    any_above(&four)
}

// A market-maker's day: 16, else what he gets.
pub fn process_market_maker(day: Day, maker: MarketMaker) -> Result<Contracts, Refusal>
    ensures { market_maker_answer result ≡ market_maker_day day maker }
{
    if market_maker_above(maker) {
        return Err(Refusal::CountTooLarge);
    }
    Ok(market_maker_limit(day, maker))
}
