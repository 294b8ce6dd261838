// Naming facts and what comes along: references, the footing and the hypotheses that they bring, the variables of facts and question 39; and what all
// forms of facts read and answer. Each function is proved equal to the definition's of the same name in the crate `rules`: answer, question, detail,
// and the terms made until then, on refusals too.
#![tactic(auto)]

pub mod entries;
pub mod references;
pub mod scope;
pub mod source;
pub mod substitutes;
pub mod support;
