// What a fact rests on, and the answer of all forms of facts.
ghost use Rattle.std.specs.Prelude.{◌≡◌};
ghost use Rattle.rules.specs.Find.{union, has};
ghost use Rattle.terms.specs.Sets.{holds};
ghost use Rattle.referring.specs.Recall.{fact_of};
ghost use Rattle.referring.specs.Referral.{rests_on};
ghost use Rattle.referring.specs.Sources.{RecallsFactIn};

use crate::references::{Referred, insert_all};
use crate::source::Facts;
use rules::{FACTWORDS, RULEWORDS};
use state::recorded::join_footing;

// Hypotheses, and the rules of a footing, as sets.
#[derive(Clone, Copy)]
pub struct Support {
    pub hyps: [u64; FACTWORDS],
    pub footing: [u64; RULEWORDS],
}

// A fact that is derived: its judgment's number, how many of its references are instances, and what it rests on.
#[derive(Clone, Copy)]
pub struct Derived {
    pub judgment: usize,
    pub instances: usize,
    pub support: Support,
}

impl Support {
    // That of a fact that rests on nothing.
    pub const NONE: Support = Support {
        hyps: [0; FACTWORDS],
        footing: [0; RULEWORDS],
    };

    // What a reference brings: the hypotheses that it rests on, and its fact's footing. This is the one place where footings join.
    pub fn join(&mut self, facts: &Facts<'_>, referred: &Referred)
        requires { RecallsFactIn facts.now referred.now.fact }
        ensures { (g : RecallsFactIn facts.now referred.now.fact) →
            (holds self.new.hyps ≡ union (holds self.old.hyps) (has (rests_on g.S referred.now.fact referred.now.bare)))
            × (holds self.new.footing ≡ union (holds self.old.footing) (has (fact_of g.S referred.now.fact).footing)) }
    {
        join_footing(facts.records, referred.fact, &mut self.footing);
        if referred.bare {
            insert_all(facts.hyps(referred.fact), &mut self.hyps);
        }
    }
}
