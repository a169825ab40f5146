// An investor whose counts are judged.
ghost use Rattle.activity_rules.specs.Activity.{investor_counts};
ghost use Rattle.activity_rules.specs.Parts.{Counted};

use activity_rules::Investor;

// No count is above 10,000,000.
#[derive(Clone, Copy)]
pub struct CountedInvestor {
    pub investor: Investor,
    ghost counted: { Counted (investor_counts investor) },
}
