// What a case of `induct` may rest on: plain hypotheses by a set of terms, rule hypotheses by the numbers of the induction hypotheses. `hyp`, `hyps` and
// `case_fact` have the shape of `rests_on`, `rests_on_all` (casework) and `verdict` (inversion), where rule hypotheses are in a set of facts and not compared
// with rows, and what the fact rests on is told beforehand. A trait over both would have two contracts for each of the three, and is no plainer.
ghost use Rattle.std.specs.Prelude.{◌≡◌, ◌&&◌, ℕ, not, suc, ◌*◌, ◌<◌, ◌≤◌, eqb, length, get_or};
ghost use Rattle.rules.specs.Limits.{FACTS, VARIABLES};
ghost use Rattle.rules.specs.Find.{all, entry};
ghost use Rattle.rules.specs.Tree.{var};
ghost use Rattle.rules.specs.Induct.{allowed_rule, allowed_hyp};
ghost use Rattle.terms.specs.Table.{Below};
ghost use Rattle.terms.specs.Sets.{holds};
ghost use Rattle.referring.specs.Recall.{fact_of};
ghost use Rattle.induction.specs.Inducing.{row_among, RestingIn, made_in, hyps_given, case_fact, asked};

use crate::motive::Rows;
use questions::Question;
use referring::source::Facts;
use rules::{TERMWORDS, VARIABLEWORDS};
use state::recorded::{is_assumed, is_plain, judgment};
use terms::sets::has;

// Plain hypotheses whose judgments are in the set of terms, and rule hypotheses that are an induction hypothesis, over variables that are in the other set,
// and none of them x.
#[derive(Clone, Copy)]
pub struct Allowed<'a> {
    pub plain: &'a [u64; TERMWORDS],
    pub used: &'a [u64; VARIABLEWORDS],
    pub x: usize,
    pub rows: Rows<'a>,
}

impl Rows<'_> {
    // Whether some row has these premises and this judgment.
    fn has(&self, own: &[u32], judgment: usize) -> bool
        requires { self.now.width ≤ FACTS }
        ensures { (many : ℕ) → length self.now.cells.now ≡ many * suc self.now.width → result ≡ row_among self.now.width many self.now.cells.now own.now judgment }
    {
        self.cells.chunks_exact(self.width + 1).any(|row| row[self.width] as usize == judgment
            && &row[..self.width] == own)
    }
}

impl Allowed<'_> {
    // Whether these variables are all in the set, and none is x.
    fn generalises(&self, own: &[u32]) -> bool
        requires { Below VARIABLES own.now }
        ensures { result ≡ all (λ g. holds self.now.used.now g && not (eqb g self.now.x)) own.now }
    {
        // A reference to an array that stands in a field is handed on as a slice from a variable alone: here, and in `hyp`.
        let used = self.used;
        own.iter()
            .all(|v| has(used, *v as usize) && *v as usize != self.x)
    }

    // Whether the case may rest on hypothesis h as a rule.
    fn rule(&self, facts: &Facts<'_>, h: usize) -> bool
        requires { RestingIn facts.now self.now × (h < facts.now.n.facts) }
        ensures { (g : RestingIn facts.now self.now) →
            result ≡ allowed_rule g.M (hyps_given g) (fact_of g.S h) }
    {
        is_assumed(facts.records, h)
            && self.generalises(facts.general(h))
            && self.rows.has(facts.premises(h), judgment(facts.records, h))
    }

    // Whether it may rest on hypothesis h.
    fn hyp(&self, facts: &Facts<'_>, h: usize) -> bool
        requires { RestingIn facts.now self.now × (h < facts.now.n.facts) }
        ensures { (g : RestingIn facts.now self.now) →
            result ≡ allowed_hyp g.M g.ps (hyps_given g) (entry g.S.facts h) }
    {
        if is_plain(facts.records, h) {
            let plain = self.plain;
            return has(plain, judgment(facts.records, h));
        }
        self.rule(facts, h)
    }

    // Whether it may rest on what fact i rests on.
    fn hyps(&self, facts: &Facts<'_>, i: usize) -> bool
        requires { RestingIn facts.now self.now × (i < facts.now.n.facts) }
        ensures { (g : RestingIn facts.now self.now) →
            result ≡ all (λ h. allowed_hyp g.M g.ps (hyps_given g) (entry g.S.facts h)) (fact_of g.S i).hyps }
    {
        let hyps = facts.hyps(i);
        hyps.iter().all(|h| self.hyp(facts, *h as usize))
    }

    // Whether fact i is there, concludes t, and rests on what it may.
    pub fn case_fact(&self, facts: &Facts<'_>, i: usize, t: usize) -> Result<(), Question>
        requires { RestingIn facts.now self.now }
        ensures { (g : RestingIn facts.now self.now) → t < g.m.terms →
            case_fact g.S g.M g.ps (hyps_given g) i (get_or (made_in g) t (var 0)) (made_in g) ≡ asked result (made_in g) }
    {
        facts.concludes(i, t)?;
        if !self.hyps(facts, i) {
            return Err(Question::CaseHypotheses);
        }
        Ok(())
    }
}
