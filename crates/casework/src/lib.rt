// The cases of an `invert`, and what each may rest on. Each function is proved equal to the definition's of the same name in the crate `rules`: answer,
// question, detail, and the terms made until then, on refusals too.
#![tactic(auto)]

pub mod cases;
pub mod context;
mod distinct;
