// The words of a text, the letters of the methods and the names lines, which reading and writing share; and by what writing leaves a column out.
#![tactic(auto)]

pub mod columns;
pub mod letters;
pub mod names;
