// Unification of terms in tables of numbers, over the store of the crate `terms`. Proved equal to the definition in the crate `rules`.
#![tactic(auto)]

mod pairs;
mod peel;
mod theta;
pub mod unify;
