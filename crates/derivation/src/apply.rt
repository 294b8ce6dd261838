// `(apply N M (BINDING...) (REF...))`: fact M as a rule. An assumed M binds its generalised variables and has its premises; of another M the
// hypotheses, all plain, are the premises, by rising index.
ghost use Rattle.std.specs.Prelude.{◌≡◌, ◌<◌, length, get_or, replicate};
ghost use Rattle.rules.specs.Limits.{VARIABLES, TERMS, VARIABLEWORDS};
ghost use Rattle.rules.specs.Find.{all, union, has as has_number};
ghost use Rattle.rules.specs.Store.{Made};
ghost use Rattle.rules.specs.State.{Fact};
ghost use Rattle.rules.specs.Apply.{plain_at, discharge, apply};
ghost use Rattle.rules.specs.Tree.{var};
ghost use Rattle.terms.specs.Lent.{SameTables, made_of};
ghost use Rattle.terms.specs.Sets.{holds};
ghost use Rattle.terms.specs.Theta.{Theta};
ghost use Rattle.referring.specs.Referral.{ReferredAs};
ghost use Rattle.referring.specs.Derived.{DerivedAs, alone};
ghost use Rattle.referring.specs.Sources.{ReadsReference, ReadsForm};
ghost use Rattle.derivation.specs.Applying.{RuleIn, fact_in, applied_in, premises_in, bindings_in, ApplicableAs, met_by, apply_to, apply_on};
ghost use Rattle.derivation.specs.Applying.{UsesRule, DischargedAs};

use questions::Question;
use reading::names::index as index_in;
use referring::references::{Referred, insert_all};
use referring::scope::visit_cells;
use referring::source::{Facts, Source};
use referring::support::{Derived, Support};
use rules::{FACTWORDS, TERMWORDS, VARIABLES, VARIABLEWORDS};
use sexp::items;
use state::recorded::{is_assumed, is_fact, is_plain, judgment};
use terms::sets::{has, insert};
use terms::store::Store;
use terms::substitute::substitute;
use terms::variables::visit;

// A fact that is used as a rule, under bindings: a cell for each variable, 0 for none and a number with 1 added, what `substitute` reads. Four methods ask
// whether it is assumed. An enum of the two uses would be matched on in the same four, and is no plainer: the definition asks of the fact itself (`applied`).
#[derive(Clone, Copy)]
struct Rule<'a> {
    fact: usize,
    bound: &'a [u32; VARIABLES],
}

// What the references bring: what is rested on, and the variables of their judgments, as a set.
#[derive(Clone, Copy)]
struct Discharge {
    support: Support,
    used: [u64; VARIABLEWORDS],
}

impl Rule<'_> {
    // Whether the hypotheses of the fact are all plain.
    fn rests_on_plain(&self, facts: &Facts<'_>) -> bool
        requires { RuleIn facts.now self.now }
        ensures { (g : RuleIn facts.now self.now) → result ≡ all (plain_at g.S.facts) (fact_in g.S self.now).hyps }
    {
        let hyps = facts.hyps(self.fact);
        hyps.iter().all(|h| is_plain(facts.records, *h as usize))
    }

    // How many premises the fact has as a rule.
    fn premises_of(&self, facts: &Facts<'_>) -> usize
        requires { RuleIn facts.now self.now }
        ensures { result ≡ length (premises_in facts.now self.now) }
    {
        if is_assumed(facts.records, self.fact) {
            return facts.premises(self.fact).len();
        }
        facts.hyps(self.fact).len()
    }

    // Its premise k.
    fn premise(&self, facts: &Facts<'_>, k: usize) -> usize
        requires { RuleIn facts.now self.now × (k < length (premises_in facts.now self.now)) }
        ensures { result ≡ get_or (premises_in facts.now self.now) k 0 }
    {
        if is_assumed(facts.records, self.fact) {
            return facts.premises(self.fact)[k] as usize;
        }
        judgment(facts.records, facts.hyps(self.fact)[k] as usize)
    }

    // A hypothesis that is used as a rule is rested on.
    fn rest_on(&self, facts: &Facts<'_>, hyps: &mut [u64; FACTWORDS])
        requires { RuleIn facts.now self.now }
        ensures { (g : RuleIn facts.now self.now) → holds hyps.new ≡ union (has_number (applied_in g.S self.now).hyps) (holds hyps.old) }
    {
        if is_assumed(facts.records, self.fact) {
            insert(hyps, self.fact);
        }
    }

    // Whether the map binds no variable but those that the fact generalises.
    fn binds_general(&self, facts: &Facts<'_>) -> bool
        requires { RuleIn facts.now self.now }
        ensures { (g : RuleIn facts.now self.now) (M : Made) →
            result ≡ all (λ b. has_number (fact_in g.S self.now).general b.variable) (bindings_in M self.now) }
    {
        let mut own = [0u64; VARIABLEWORDS];
        insert_all(facts.general(self.fact), &mut own);
        let bound = self.bound;
        let mut cells = bound.iter().enumerate();
        cells.all(|(v, t)| *t == 0 || has(&own, v))
    }

    // Questions 36 and 40: whether the fact can be used as a rule under the map.
    fn applicable(&self, facts: &Facts<'_>) -> Result<(), Question>
        requires { RuleIn facts.now self.now }
        ensures { (g : RuleIn facts.now self.now) (M : Made) → ApplicableAs g.S (bindings_in M self.now) self.now.fact (fact_in g.S self.now) result }
    {
        if is_assumed(facts.records, self.fact) {
            if self.binds_general(facts) {
                return Ok(());
            }
            return Err(Question::Binding);
        }
        if self.rests_on_plain(facts) {
            return Ok(());
        }
        Err(Question::Hypothesis)
    }

    // The reference that the first item is, which must be the premise p under the map (question 38). `memo` is scratch: zero before and after.
    fn met(
        &self,
        source: &Source<'_>,
        store: &mut Store<'_>,
        p: usize,
        cells: &[u32],
        memo: &mut [u32],
    ) -> Result<Referred, Question>
        requires reads { ReadsReference source.now store.old cells.now }
        requires theta { Theta store.old.mark self.now.bound.now × (p < store.old.mark.terms) × (memo.old ≡ replicate TERMS 0) }
        ensures same_tables { SameTables store.old store.new }
        ensures referred_as { (g : ReadsReference source.now store.old cells.now) → let M = made_of store.old in
            ReferredAs store.old store.new g.S (met_by g.S (bindings_in M self.now) (get_or M p (var 0)) g.x M) result }
        ensures memo_unchanged { memo.new ≡ memo.old }
    {
        let bound = self.bound;
        let under = substitute(store, bound, memo, p)?;
        let referred = source.reference(store, cells, memo)?;
        if referred.judgment != under {
            return Err(Question::Matching);
        }
        Ok(referred)
    }

    // Each premise under the map, and the reference that is it. `memo` is scratch: zero before and after.
    fn discharge(
        &self,
        source: &Source<'_>,
        store: &mut Store<'_>,
        cells: &[u32],
        memo: &mut [u32],
    ) -> Result<Discharge, Question>
        requires rule_use { UsesRule source.now store.old self.now cells.now }
        requires memo_value { memo.old ≡ replicate TERMS 0 }
        ensures same_tables { SameTables store.old store.new }
        ensures discharged_as { (g : UsesRule source.now store.old self.now cells.now) → let M = made_of store.old in
            DischargedAs store.old store.new g.S (discharge g.S (bindings_in M self.now) g.xs (applied_in g.S self.now).premises M) result }
        ensures memo_unchanged { memo.new ≡ memo.old }
    {
        let facts = source.facts();
        let mut seen = [0u64; TERMWORDS];
        let mut used = [0u64; VARIABLEWORDS];
        let mut support = Support::NONE;
        for (k, item) in items::all(cells).enumerate() {
            let p = self.premise(&facts, k);
            let referred = self.met(source, store, p, item, memo)?;
            support.join(&facts, &referred);
            visit(&store.terms(), referred.judgment, &mut seen, &mut used);
        }
        Ok(Discharge { support, used })
    }

    // The rest of the form behind its conclusion j. `memo` is scratch: zero before and after.
    fn apply_to(
        &self,
        source: &Source<'_>,
        store: &mut Store<'_>,
        j: usize,
        cells: &[u32],
        memo: &mut [u32],
    ) -> Result<Derived, Question>
        requires rule_use { UsesRule source.now store.old self.now cells.now }
        requires blank { (memo.old ≡ replicate TERMS 0) × (j < store.old.mark.terms) }
        ensures same_tables { SameTables store.old store.new }
        ensures derived_as { (g : UsesRule source.now store.old self.now cells.now) → let M = made_of store.old in
            DerivedAs Fact store.old store.new g.S (apply_to g.S (bindings_in M self.now) (applied_in g.S self.now) g.xs (get_or M j (var 0)) M) alone result }
        ensures memo_unchanged { memo.new ≡ memo.old }
    {
        let facts = source.facts();
        let Discharge {
            mut support,
            mut used,
        } = self.discharge(source, store, cells, memo)?;
        self.rest_on(&facts, &mut support.hyps);
        let terms = store.terms();
        let bound = self.bound;
        let mut seen = [0u64; TERMWORDS];
        visit_cells(&terms, bound, &mut seen, &mut used);
        facts.scoped(&terms, &used, j, &support.hyps)?;
        Ok(Derived {
            judgment: j,
            instances: 0,
            support,
        })
    }

    // The rest of the form behind its bindings. `memo` is scratch: zero before and after.
    fn apply_on(
        &self,
        source: &Source<'_>,
        store: &mut Store<'_>,
        cells: &[u32],
        memo: &mut [u32],
    ) -> Result<Derived, Question>
        requires reads { ReadsForm source.now store.old cells.now 5 }
        requires theta { Theta store.old.mark self.now.bound.now × (memo.old ≡ replicate TERMS 0) }
        ensures same_tables { SameTables store.old store.new }
        ensures derived_as { (g : ReadsForm source.now store.old cells.now 5) → let M = made_of store.old in
            DerivedAs Fact store.old store.new g.S (apply_on g.S self.now.fact g.xs (bindings_in M self.now) M) alone result }
        ensures memo_unchanged { memo.new ≡ memo.old }
    {
        if !is_fact(source.reader.n, self.fact) {
            return Err(Question::Earlier);
        }
        let facts = source.facts();
        self.applicable(&facts)?;
        let inner = items::list(cells, 4).ok_or(Question::Premises)?;
        if items::count(inner) != self.premises_of(&facts) {
            return Err(Question::Premises);
        }
        let bound = self.bound;
        let j = substitute(store, bound, memo, judgment(facts.records, self.fact))?;
        self.apply_to(source, store, j, inner, memo)
    }
}

// The form, whose items the cells hold. `memo` is scratch: zero before and after.
pub fn apply(
    source: &Source<'_>,
    store: &mut Store<'_>,
    cells: &[u32],
    memo: &mut [u32],
) -> Result<Derived, Question>
    requires reads { ReadsForm source.now store.old cells.now 5 }
    requires memo_value { memo.old ≡ replicate TERMS 0 }
    ensures same_tables { SameTables store.old store.new }
    ensures derived_as { (g : ReadsForm source.now store.old cells.now 5) →
        DerivedAs Fact store.old store.new g.S (apply g.S g.xs (made_of store.old)) alone result }
    ensures memo_unchanged { memo.new ≡ memo.old }
{
    let i = index_in(source.reader.text, items::from(cells, 2)).ok_or(Question::Earlier)?;
    let inner = items::list(cells, 3).ok_or(Question::Binding)?;
    let mut bound = [0; VARIABLES];
    source.reader.bindings(store, inner, &mut bound)?;
    let rule = Rule {
        fact: i,
        bound: &bound,
    };
    rule.apply_on(source, store, cells, memo)
}
