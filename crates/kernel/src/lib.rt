// From the text of a theory to its tables, and how these are read: by name and by number.
#![tactic(auto)]

pub mod atoms;
mod declare;
mod judgments;
pub mod names;
pub mod parse;
mod patterns;
mod premises;
mod readers;
mod rule;
pub mod rule_readers;
mod signatures;
mod symbols;
pub mod tables;
