// The texts of a check, where it stops, why it is refused, and its end: the answer, over tables of their named lengths.
#![tactic(auto)]

pub mod finish;
pub mod refusal;
pub mod stopped;
pub mod texts;
