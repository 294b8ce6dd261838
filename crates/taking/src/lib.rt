// One form after the other goes this way: its tag says which form it is, what it adds comes into the tables, and a refused form leaves no trace. Proved
// equal to `take_goal` and `take_form` of the crate `rules`.
#![tactic(auto)]

pub mod tags;
pub mod take;
