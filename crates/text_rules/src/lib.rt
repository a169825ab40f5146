// The text of a series as definitions (specs/) and laws about them (proofs/). Of the code they name what the names lines stand for.
#![tactic(auto)]

use forms::Form;

// The columns that line 1 names, whose values stand in line 2: with the increment or without it.
#[derive(Clone, Copy, Debug, PartialEq, Eq)]
pub enum TermsColumns {
    MethodExercisedDraw,
    MethodExercisedDrawIncrement,
}

// The columns that line 3 names: shorts or last numbers, after a code or without one.
#[derive(Clone, Copy, Debug, PartialEq, Eq)]
pub struct PositionColumns {
    pub form: Form,
    pub coded: bool,
}
