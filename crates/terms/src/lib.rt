// Terms in tables of numbers: sets of variables, facts and rules as bits, the store of terms, the variables of a term, substitution,
// what a word of a node stands for, and a rule's patterns matched and built. Each function is proved equal to the definition in the crate `rules`.
#![tactic(auto)]

pub mod heads;
pub mod patterns;
pub mod replace;
pub mod sets;
pub mod store;
pub mod substitute;
pub mod variables;
