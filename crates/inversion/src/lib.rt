// `invert`: a fact from a fact that some rule must have concluded, a case for each rule that can have. Each function is proved equal to the definition's
// of the same name in the crate `rules`: answer, question, detail, and the terms made until then, on refusals too.
#![tactic(auto)]

pub mod invert;
pub mod inverting;
mod judging;
mod meeting;
mod renaming;
mod turning;
