// How L and R start, where their work starts, and what such a call hands back.
#![tactic(auto)]

ghost use Rattle.std.specs.Prelude.{◌≡◌};
ghost use Rattle.series.specs.Answers.{allocation_of};
ghost use Rattle.starts.specs.Starts.{start_by, method_for, start_of};

use series::{Allocated, Contracts, Method, Place};

// How a draw leads to a starting place.
#[derive(Clone, Copy, Debug, PartialEq, Eq)]
pub enum StartBy {
    // L: the draw in ten-thousandths of T, rounded up.
    TenThousandths,
    // R: the draw modulo T, plus 1.
    Remainder,
}

// How a draw leads to a starting place under L or R; W and P do not ask. No conversion: they have no start of their own.
pub fn start_by(method: Method) -> StartBy
    ensures { result ≡ start_by method }
{
    match method {
        Method::RemainderDraw => StartBy::Remainder,
        _ => StartBy::TenThousandths,
    }
}

// The method that goes by such a start.
impl From<StartBy> for Method {
    ghost from_gives = { λ by method. method ≡ method_for by };

    fn from(by: StartBy) -> Method {
        match by {
            StartBy::TenThousandths => Method::Lottery,
            StartBy::Remainder => Method::RemainderDraw,
        }
    }
}

// What such a call hands back: T and the starting place, or none where none is needed.
pub fn answer_for(by: StartBy, total: Contracts, start: Option<Place>) -> Allocated
    ensures { allocation_of result ≡ record { method = method_for by; total = total.0; further = start_of start } }
{
    match by {
        StartBy::TenThousandths => Allocated::Lottery { total, start },
        StartBy::Remainder => Allocated::RemainderDraw { total, start },
    }
}
