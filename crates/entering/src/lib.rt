// Forms of derived facts: what `step`, `apply`, an induction or an inversion finds comes behind the facts. Each function is proved equal to the
// definition's in the crate `rules` (add_step, add_apply, ..), every lent cell included.
#![tactic(auto)]

pub mod derive;
