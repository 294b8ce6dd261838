// The meaning of a check is in specs/: derivations, truth, and what the definition's answers say of them. There is no code here.
#![tactic(auto)]
