// One form of the proof: it is read, taken and cleared away. The fact that it stores stands in the lent records; where the next one begins and what was
// counted are answered. Proved to follow the definition's `through` over the forms of the proof, form by form.
#![tactic(auto)]

pub mod advance;
