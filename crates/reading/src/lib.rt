// What the items of a form spell: indices, variables, terms and judgments, lists of variables, hypotheses and judgments, bindings. Each function is
// proved equal to the definition's of the same name in the crate `rules`: answer, question, and the terms made until then, on refusals too.
// A function that reads one item reads the first of the cells that it gets, so that the rest of a list goes on as a part of its cells.
#![tactic(auto)]

pub mod bindings;
pub mod hyps;
pub mod lists;
pub mod names;
pub mod reader;
pub mod term;
