// `induct`: a fact for every value of a variable, a case for each constructor. Each function is proved equal to the definition's of the same name in the
// crate `rules`: answer, question, detail, and the terms made until then, on refusals too.
#![tactic(auto)]

mod cases;
pub mod induct;
mod induct_cases;
mod motive;
mod resting;
