// Round two, as a list is served by it.
ghost use Rattle.std.specs.Prelude.{◌≡◌, ◌≤◌, ◌<◌, ltb};
ghost use Rattle.series.specs.Series.{MOST_POSITIONS};
ghost use Rattle.series.specs.ProRata.{turn};
ghost use Rattle.series.specs.CutOff.{at_cut_off};

use series::Contracts;

// Round two by the cut-off: `served` of the `tied` positions get a contract, beginning with number `first` + 1.
#[derive(Clone, Copy, Debug, PartialEq, Eq)]
pub struct RoundTwo {
    pub cut: u32,
    pub tied: u32,
    pub first: u32,
    pub served: u32,
    pub ghost few: { tied ≤ MOST_POSITIONS },
    pub ghost begins: { first < tied },
    pub ghost serves: { served ≤ tied },
}

impl RoundTwo {
    // Whether number `number` + 1 of the tied positions is served.
    pub fn in_turn(self, number: u32) -> bool
        requires { number < self.tied }
        ensures { result ≡ ltb (turn self.first self.tied number) self.served }
    {
        if number < self.first {
            self.tied - self.first + number < self.served
        } else {
            number - self.first < self.served
        }
    }

    // What the position with this decimal part gets, where `number` tied ones come before it in the list.
    pub fn contract(self, part: u32, number: u32) -> Contracts
        requires { part ≡ self.cut → number < self.tied }
        ensures { result.0 ≡ at_cut_off self.cut self.first self.tied self.served part number }
    {
        if part == self.cut {
            if self.in_turn(number) {
                return Contracts(1);
            }
            return Contracts(0);
        }
        if self.cut < part {
            return Contracts(1);
        }
        Contracts(0)
    }
}
