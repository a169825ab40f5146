// The vocabulary of document 01: what the calls of the library take and answer with.
#![tactic(auto)]

ghost use Rattle.std.specs.Prelude.{◌≡◌};
ghost use Rattle.series.specs.Answers.{number_of, coded_by_account, without_codes};
ghost use Rattle.series.specs.Series.{terms_of};

// A place on the wheel, document 01's "place": counts from 1.
#[derive(Clone, Copy, Debug, PartialEq, Eq, PartialOrd, Ord)]
pub struct Place(pub u32);

// A number of contracts, as T, S, a position's shorts or an amount: counts from 0.
#[derive(Clone, Copy, Debug, PartialEq, Eq, PartialOrd, Ord)]
pub struct Contracts(pub u32);

// The methods: the wheel (W), pro rata (P), the starting number (L), the remainder draw (R).
#[derive(Clone, Copy, Debug, PartialEq, Eq)]
pub enum Method {
    Wheel,
    ProRata,
    Lottery,
    RemainderDraw,
}

// What a call is given of a series beside its lists: the method, the contracts exercised (S), the draw and, for the wheel, the assignment increment.
#[derive(Clone, Copy, Debug, PartialEq, Eq)]
pub struct Terms {
    pub method: Method,
    pub exercised: Contracts,
    pub draw: u32,
    pub increment: Contracts,
}

// A list has at most so many positions.
pub const MOST_POSITIONS: usize = 4096;

// T is at most so many contracts.
pub const MOST_CONTRACTS: u32 = 10_000_000;

// The increment where none is given.
pub const DEFAULT_INCREMENT: u32 = 25;

// The terms of a method, S, a draw and an increment.
pub fn terms_of(method: Method, exercised: Contracts, draw: u32, increment: Contracts) -> Terms
    ensures { result ≡ terms_of method exercised.0 draw increment.0 }
{
    Terms {
        method,
        exercised,
        draw,
        increment,
    }
}

// The short positions of a series: a code, an account and its shorts each.
#[derive(Clone, Copy)]
pub struct Positions<'a> {
    pub codes: &'a [u32],
    pub accounts: &'a [u32],
    pub shorts: &'a [u32],
}

impl<'a> Positions<'a> {
    // The accounts and shorts alone.
    pub fn account_list(&self) -> AccountList<'a>
        ensures { result ≡ without_codes self.now }
    {
        let Positions {
            accounts,
            shorts,
            ..
        } = *self;
        AccountList { accounts, shorts }
    }
}

// Short positions with no codes of their own: an account and its shorts each.
#[derive(Clone, Copy)]
pub struct AccountList<'a> {
    pub accounts: &'a [u32],
    pub shorts: &'a [u32],
}

impl<'a> AccountList<'a> {
    // The positions, with the accounts for codes.
    pub fn positions(&self) -> Positions<'a>
        ensures { result ≡ coded_by_account self.now }
    {
        Positions {
            codes: self.accounts,
            accounts: self.accounts,
            shorts: self.shorts,
        }
    }
}

// A series: its terms and its positions.
#[derive(Clone, Copy)]
pub struct Series<'a> {
    pub terms: Terms,
    pub positions: Positions<'a>,
}

// Why a call is turned away, by the numbers of documents 01 and 02.
#[derive(Clone, Copy, Debug, PartialEq, Eq)]
pub enum Refusal {
    LengthsDiffer = 1,
    TooManyPositions = 2,
    NoPositions = 3,
    OutputTooShort = 4,
    OutOfOrder = 5,
    NoShorts = 6,
    TotalTooLarge = 7,
    NothingExercised = 8,
    ExercisedAboveTotal = 9,
    DrawOutOfRange = 10,
    TextTooLong = 11,
    NamesLine = 12,
    Malformed = 13,
    UnknownMethod = 14,
    TooManyLines = 15,
    CountTooLarge = 16,
    ClosingPurchasesAboveShort = 17,
    ExercisedAboveLimit = 18,
    AccountRepeated = 19,
    LastNotAbove = 20,
    TooManyJobs = 21,
    StretchMisplaced = 22,
    IncrementOutOfRange = 23,
    TooManyBlocks = 24,
}

// The number of a refusal.
impl From<Refusal> for u32 {
    ghost from_gives = { λ refusal number. number ≡ number_of refusal };

    fn from(refusal: Refusal) -> u32 {
        refusal as u32
    }
}

// What an allocation hands back: T with the method's one further number. L and R have no starting place where S equals T or the list has one position.
#[derive(Clone, Copy, Debug, PartialEq, Eq)]
pub enum Allocated {
    // The number of blocks T1, 0 where S equals T.
    Wheel {
        total: Contracts,
        blocks: u32,
    },
    // The contracts of round two.
    ProRata {
        total: Contracts,
        remainder: Contracts,
    },
    Lottery {
        total: Contracts,
        start: Option<Place>,
    },
    RemainderDraw {
        total: Contracts,
        start: Option<Place>,
    },
}
