// Days of investors and of market-makers, a line for each: a label, and for an ordinary day and then the final trading day the limit with long and short after the day, or the refusal.
#![tactic(auto)]

use activity::{Day, Investor, MarketMaker, Transactions};
use series::{Contracts, Refusal};

// What cannot be written is missing in the output, and the comparison shows it.
fn print(rt: &impl Print, text: &[u8]) {
    let _ = rt.write_all(text);
}

fn print_number(rt: &impl Print, name: &[u8], n: u32) {
    print(rt, name);
    let _ = print!(rt; "{n}");
}

fn print_refusal(rt: &impl Print, refusal: Refusal) {
    print_number(rt, b" refused ", u32::from(refusal));
}

fn print_investor(rt: &impl Print, day: Day, investor: Investor) {
    match activity::process_investor(day, investor) {
        Ok(after) => {
            print_number(rt, b" limit ", after.limit.0);
            print_number(rt, b" long ", after.long.0);
            print_number(rt, b" short ", after.short.0);
        }
        Err(refusal) => print_refusal(rt, refusal),
    }
}

fn print_market_maker(rt: &impl Print, day: Day, maker: MarketMaker) {
    match activity::process_market_maker(day, maker) {
        Ok(limit) => print_number(rt, b" limit ", limit.0),
        Err(refusal) => print_refusal(rt, refusal),
    }
}

// An investor's opening long and short, opening purchases and sales, closing purchases and sales, and the contracts to exercise, on both kinds of day.
fn investor(rt: &impl Print, label: &[u8], counts: [u32; 7]) {
    let given = Investor {
        long: Contracts(counts[0]),
        short: Contracts(counts[1]),
        purchases: Transactions {
            opening: Contracts(counts[2]),
            closing: Contracts(counts[4]),
        },
        sales: Transactions {
            opening: Contracts(counts[3]),
            closing: Contracts(counts[5]),
        },
        exercised: Contracts(counts[6]),
    };
    print(rt, label);
    print(rt, b":");
    print_investor(rt, Day::Ordinary, given);
    print(rt, b" ;");
    print_investor(rt, Day::Final, given);
    print(rt, b"\n");
}

// A market-maker's long, short, purchases and sales, on both kinds of day.
fn market_maker(rt: &impl Print, label: &[u8], counts: [u32; 4]) {
    let given = MarketMaker {
        long: Contracts(counts[0]),
        short: Contracts(counts[1]),
        purchases: Contracts(counts[2]),
        sales: Contracts(counts[3]),
    };
    print(rt, label);
    print(rt, b":");
    print_market_maker(rt, Day::Ordinary, given);
    print(rt, b" ;");
    print_market_maker(rt, Day::Final, given);
    print(rt, b"\n");
}

// The circular's examples, with as many exercised as may be on each kind of day, one more, and none.
fn circular(rt: &impl Print) {
    investor(rt, b"X, 35 exercised", [15, 0, 20, 0, 0, 10, 35]);
    investor(rt, b"X, 36 exercised", [15, 0, 20, 0, 0, 10, 36]);
    investor(rt, b"X, 26 exercised", [15, 0, 20, 0, 0, 10, 26]);
    investor(rt, b"X, 25 exercised", [15, 0, 20, 0, 0, 10, 25]);
    investor(rt, b"X, none exercised", [15, 0, 20, 0, 0, 10, 0]);
    investor(rt, b"Y, 20 exercised", [0, 20, 20, 0, 0, 0, 20]);
    investor(rt, b"Y, 21 exercised", [0, 20, 20, 0, 0, 0, 21]);
    investor(rt, b"Y, none exercised", [0, 20, 20, 0, 0, 0, 0]);
    market_maker(rt, b"Z", [0, 100, 100, 100]);
}

// Closing sales: below the remaining long, as many, one more, and beside other trades.
fn closing_sales(rt: &impl Print) {
    investor(rt, b"below the remaining long", [10, 0, 0, 0, 0, 4, 3]);
    investor(rt, b"as many as the remaining long", [10, 0, 0, 0, 0, 7, 3]);
    investor(
        rt,
        b"one more than the remaining long",
        [10, 0, 0, 0, 0, 8, 3],
    );
    investor(
        rt,
        b"with opening sales, all exercised",
        [3, 4, 2, 6, 1, 8, 5],
    );
    investor(
        rt,
        b"with opening sales, none exercised",
        [3, 4, 2, 6, 1, 8, 0],
    );
    investor(rt, b"nothing but closing sales", [0, 0, 0, 0, 0, 8, 0]);
}

// Closing purchases: as many as opening short plus opening sales, one more, and with closing sales that count as opening ones.
fn closing_purchases(rt: &impl Print) {
    investor(rt, b"short and opening sales closed", [0, 3, 0, 2, 5, 0, 0]);
    investor(rt, b"17, one more", [0, 3, 0, 2, 6, 0, 0]);
    investor(rt, b"17, closing sales do not help", [0, 0, 0, 0, 5, 10, 0]);
    investor(rt, b"17 before 18", [0, 0, 0, 0, 1, 0, 9]);
    investor(rt, b"short closed, long exercised", [10, 5, 0, 0, 5, 0, 10]);
    investor(rt, b"no activity", [0, 0, 0, 0, 0, 0, 0]);
}

// Counts as large as they may be, and one above it.
fn largest(rt: &impl Print) {
    let most = 10_000_000;
    let above = 10_000_001;
    investor(
        rt,
        b"every count",
        [most, most, most, most, most, most, most],
    );
    investor(
        rt,
        b"none exercised",
        [most, most, most, most, most, most, 0],
    );
    investor(rt, b"all of it long", [most, 0, most, 0, 0, 0, most]);
    investor(rt, b"all of it short", [0, most, 0, most, 0, most, 0]);
    investor(rt, b"16, long", [above, 0, 0, 0, 0, 0, 0]);
    investor(rt, b"16, short", [0, above, 0, 0, 0, 0, 0]);
    investor(rt, b"16, opening purchases", [0, 0, above, 0, 0, 0, 0]);
    investor(rt, b"16, opening sales", [0, 0, 0, above, 0, 0, 0]);
    investor(rt, b"16 before 17", [0, 0, 0, 0, above, 0, 0]);
    investor(rt, b"16, closing sales", [0, 0, 0, 0, 0, above, 0]);
    investor(rt, b"16 before 18", [0, 0, 0, 0, 0, 0, above]);
    investor(rt, b"16, largest number", [0, 0, 0, 0, 0, 4_294_967_295, 0]);
}

// Market-makers meet only 16.
fn market_makers(rt: &impl Print) {
    market_maker(rt, b"more purchases than sales", [0, 0, 5, 0]);
    market_maker(rt, b"long, and short", [1, 2, 3, 4]);
    market_maker(rt, b"long above short", [9, 2, 3, 4]);
    market_maker(
        rt,
        b"market-maker, every count",
        [10_000_000, 10_000_000, 10_000_000, 10_000_000],
    );
    market_maker(rt, b"16, market-maker's long", [10_000_001, 0, 0, 0]);
    market_maker(rt, b"16, market-maker's short", [0, 10_000_001, 0, 0]);
    market_maker(rt, b"16, purchases", [0, 0, 10_000_001, 0]);
    market_maker(rt, b"16, sales", [0, 0, 0, 4_294_967_295]);
}

fn main(rt: HostRuntime) {
    circular(&rt);
    closing_sales(&rt);
    closing_purchases(&rt);
    largest(&rt);
    market_makers(&rt);
}
