// Positions whose lengths are judged.
ghost use Rattle.rising_lists.specs.Even.{EvenList};

use series::Positions;

// As many codes and accounts as shorts, and not too many.
#[derive(Clone, Copy)]
pub struct EvenPositions<'a> {
    pub positions: Positions<'a>,
    pub ghost even: { EvenList positions.codes.now positions.accounts.now positions.shorts.now },
}
