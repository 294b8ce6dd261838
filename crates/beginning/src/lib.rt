// The beginning of a check, up to the first form of the proof: are the tables long enough, may the texts be read, what does the theory declare, what do
// the goals say.
#![tactic(auto)]

pub mod begin;
mod goals;
pub mod lengths;
pub mod tables;
pub mod texts;
