// What forms store that derive nothing: variables, abbreviations, goals, hypotheses, results, and the index that a form gives its fact. Each function is
// proved equal to the definition's in the crate `rules`, every lent cell included.
#![tactic(auto)]

pub mod declare;
pub mod goals;
pub mod hypotheses;
pub mod next;
pub mod results;
mod stating;
