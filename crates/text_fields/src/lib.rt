// The parts of a line, read: a fixed line, a field, and a row of numbers; and what reading and writing share of them.
#![tactic(auto)]

pub mod digits;
pub mod ends;
pub mod field;
mod number;
pub mod row;

// Something read, and the text after it.
#[derive(Clone, Copy)]
pub struct Read<'a, T> {
    pub found: T,
    pub rest: &'a [u8],
}
