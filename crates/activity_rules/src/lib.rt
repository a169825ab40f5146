// The day's activity as definitions (specs/) and laws about them (proofs/). Of the code they name what is given of a day, and what an investor gets.
#![tactic(auto)]

use series::Contracts;

// The kinds of day: any but the final trading day, and that day.
#[derive(Clone, Copy, Debug, PartialEq, Eq)]
pub enum Day {
    Ordinary,
    Final,
}

// Purchases, or sales, of a day, marked as opening and as closing transactions.
#[derive(Clone, Copy, Debug, PartialEq, Eq)]
pub struct Transactions {
    pub opening: Contracts,
    pub closing: Contracts,
}

// What an investor (a firm or a customer) gives of a day: long and short at its opening, the transactions, and the contracts to exercise.
#[derive(Clone, Copy, Debug, PartialEq, Eq)]
pub struct Investor {
    pub long: Contracts,
    pub short: Contracts,
    pub purchases: Transactions,
    pub sales: Transactions,
    pub exercised: Contracts,
}

// What a market-maker gives of a day, who does not mark his transactions.
#[derive(Clone, Copy, Debug, PartialEq, Eq)]
pub struct MarketMaker {
    pub long: Contracts,
    pub short: Contracts,
    pub purchases: Contracts,
    pub sales: Contracts,
}

// What an investor gets: how many contracts he may exercise, and long and short after the day.
#[derive(Clone, Copy, Debug, PartialEq, Eq)]
pub struct AfterDay {
    pub limit: Contracts,
    pub long: Contracts,
    pub short: Contracts,
}
