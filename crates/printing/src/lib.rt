// What the programs read and write: texts, read from files; the line of an answer; what a check recorded, read off its tables, of which nothing is asked.
#![tactic(auto)]

pub mod bytes;
pub mod checked;
pub mod line;
mod listing;
pub mod load;
mod names;
mod recorded;
mod spelling;
