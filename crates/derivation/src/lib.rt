// `step` and `apply`: a fact from earlier facts, by a rule of the theory or by a fact with premises. Each function is proved equal to the definition's of
// the same name in the crate `rules`: answer, question, detail, and the terms made until then, on refusals too.
#![tactic(auto)]

pub mod apply;
mod items;
pub mod step;
