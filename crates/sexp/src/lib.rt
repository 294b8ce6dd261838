// The reader: from the bytes of a text to the cells of its forms, and what is read off them.
#![tactic(auto)]

pub mod items;
pub mod lex;
pub mod names;
pub mod sexp;
pub mod tags;
mod tokens;
