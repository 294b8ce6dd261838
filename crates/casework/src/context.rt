// What a case of `invert` may rest on: the rule's premises and the facts of the context, under the unifier. Those without premises and generalised
// variables are a set of terms; each other one is compared with the facts that the case rests on (question 44), which come into a set. `none_in`, a
// question of sets, is here for inversion too.
ghost use Rattle.state.specs.Records.{fact_rows};
ghost use Rattle.std.specs.Prelude.{◌≡◌, not, List, ℕ, ◌*◌, ◌<◌, length, replicate};
ghost use Rattle.rules.specs.Limits.{VARIABLES, TERMS, TERMWORDS, FACTWORDS};
ghost use Rattle.rules.specs.Find.{all};
ghost use Rattle.rules.specs.Theory.{rule};
ghost use Rattle.rules.specs.Store.{Made};
ghost use Rattle.rules.specs.Unify.{along};
ghost use Rattle.rules.specs.Invert.{Allowed, clear, context_fact, context_facts, rule_premises, renaming};
ghost use Rattle.terms.specs.Lent.{GoodTerms, SameTables, terms_of, terms_made, made_of};
ghost use Rattle.terms.specs.Sets.{holds};
ghost use Rattle.terms.specs.Theta.{bindings, Theta};
ghost use Rattle.state.specs.declared.sizes.Sizes.{Sizes};
ghost use Rattle.state.specs.Entries.{part};
ghost use Rattle.state.specs.Rows.{premises_span};
ghost use Rattle.referring.specs.Recall.{fact_of};
ghost use Rattle.referring.specs.Sources.{RecallsIn};
ghost use Rattle.terms.specs.Table.{Below};
ghost use Rattle.referring.specs.Ids.{IDS};
ghost use Rattle.casework.specs.Context.{Comparing, allowed_as, allowed_by, allows, plainly, AddedAs, OneMarked, MarkedAs, RestsIn, may_rest};
ghost use Rattle.casework.specs.Context.{ContextIn, ContextAs, PutUnder, one, all_of, UnboundAs, RenamedIn, PremisesAs};

use cells::clear;
use kernel::rule_readers::Rules;
use questions::{Question, Row};
use referring::scope::visit_cells;
use referring::source::Facts;
use referring::substitutes::substitute_all;
use rules::{FACTWORDS, TERMWORDS, VARIABLES, VARIABLEWORDS};
use state::recorded::{is_assumed, is_plain, judgment};
use terms::patterns::Bound;
use terms::sets::{has, insert};
use terms::store::{Store, Terms};
use terms::substitute::substitute;

// What a case may rest on.
#[derive(Clone, Copy)]
pub struct Grounds<'a> {
    // what the case's fact rests on
    pub own: &'a [u32],
    // a set of terms: the judgments that are allowed without premises and generalised variables
    pub plain: [u64; TERMWORDS],
    // a set of facts: those of `own` that are allowed with premises or generalised variables
    pub fine: [u64; FACTWORDS],
}

// A fact that is allowed, by its numbers: its judgment, its premises, its generalised variables.
#[derive(Clone, Copy)]
pub struct Allowing<'a> {
    pub judgment: usize,
    pub premises: &'a [u32],
    pub general: &'a [u32],
}

// A rule, with the terms that its variables are renamed to, which patterns are built over, and the unifier in cells: 0 for none and a number with 1 added,
// as `substitute` takes it.
#[derive(Clone, Copy)]
pub struct Renamed<'a> {
    pub rule: usize,
    pub bound: &'a Bound,
    pub theta: &'a [u32; VARIABLES],
}

impl Allowing<'_> {
    // Whether it has neither premises nor generalised variables.
    fn is_plain(&self) -> bool
        ensures { (M : Made) → result ≡ plainly (allowed_as M self.now) }
    {
        self.premises.is_empty() && self.general.is_empty()
    }

    // Whether fact h has its judgment, premises and generalised variables.
    fn is_fact(&self, facts: &Facts<'_>, h: usize) -> bool
        requires { Comparing facts.now self.now × (h < facts.now.n.facts) }
        ensures { (g : Comparing facts.now self.now) → result ≡ allows g h }
    {
        if judgment(facts.records, h) != self.judgment {
            return false;
        }
        self.premises == facts.premises(h) && self.general == facts.general(h)
    }
}

// The cells of these variables become zero.
fn unbind(variables: &[u32], map: &mut [u32])
    requires { Below (length map.old) variables.now }
    ensures { UnboundAs variables.now map.old map.new }
{
    for v in variables {
        map[*v as usize] = 0;
    }
}

// Whether none of the variables is in the set.
pub fn none_in(set: &[u64], variables: &[u32]) -> bool
    requires { Below (64 * length set.now) variables.now }
    ensures { result ≡ all (λ v. not (holds set.now v)) variables.now }
{
    variables.iter().all(|v| !has(set, *v as usize))
}

// Question 48: whether no value of the map has one of the variables.
fn is_clear(terms: &Terms<'_>, map: &[u32], variables: &[u32]) -> bool
    requires { GoodTerms terms.now × Theta terms.now.mark map.now × Below VARIABLES variables.now }
    ensures { result ≡ clear variables.now (bindings (terms_made terms.now) map.now 0) }
{
    let mut seen = [0u64; TERMWORDS];
    let mut inside = [0u64; VARIABLEWORDS];
    visit_cells(terms, map, &mut seen, &mut inside);
    none_in(&inside, variables)
}

impl<'a> Grounds<'a> {
    // Nothing is allowed yet.
    pub fn none(own: &'a [u32]) -> Self
        ensures { (result.own.now ≡ own.now) × (result.plain ≡ replicate TERMWORDS 0) × (result.fine ≡ replicate FACTWORDS 0) }
    {
        Grounds {
            own,
            plain: [0; TERMWORDS],
            fine: [0; FACTWORDS],
        }
    }

    // Fact h joins the set where it has that judgment, those premises and generalised variables.
    fn mark_one(&mut self, facts: &Facts<'_>, h: usize, allowing: &Allowing<'_>)
        requires { Comparing facts.now allowing.now × (h < facts.now.n.facts) }
        ensures marked { (g : Comparing facts.now allowing.now) → OneMarked (allows g h) h self.old.fine self.new.fine }
        ensures others { (self.new.own ≡ self.old.own) × (self.new.plain ≡ self.old.plain) }
    {
        if allowing.is_fact(facts, h) {
            insert(&mut self.fine, h);
        }
    }

    // Those of the facts `own` that have that judgment, those premises and generalised variables join the set.
    fn mark_rests(&mut self, facts: &Facts<'_>, allowing: &Allowing<'_>)
        requires { Comparing facts.now allowing.now × Below facts.now.n.facts self.old.own.now }
        ensures marked { (g : Comparing facts.now allowing.now) → MarkedAs g.recalls.S self.old.own.now (allowed_by g) self.old.fine self.new.fine }
        ensures others { (self.new.own ≡ self.old.own) × (self.new.plain ≡ self.old.plain) }
    {
        for h in self.own {
            self.mark_one(facts, *h as usize, allowing);
        }
    }

    // What a fact of the context allows joins the sets.
    fn allow(&mut self, facts: &Facts<'_>, allowing: &Allowing<'_>)
        requires { Comparing facts.now allowing.now × Below facts.now.n.facts self.old.own.now }
        ensures adds { (g : Comparing facts.now allowing.now) → AddedAs g self.old self.new }
        ensures own { self.new.own ≡ self.old.own }
    {
        if allowing.is_plain() {
            insert(&mut self.plain, allowing.judgment);
            return;
        }
        self.mark_rests(facts, allowing);
    }

    // Fact h of the context under the substitution `map`, and what it allows. `memo` is scratch: zero before and after; `ids` has a cell for each of the
    // fact's premises, of whatever content before and after.
    fn fact_under(
        &mut self,
        facts: &Facts<'_>,
        store: &mut Store<'_>,
        map: &[u32],
        memo: &mut [u32],
        h: usize,
        ids: &mut [u32],
    ) -> Result<(), Row>
        requires { ContextIn facts.now store.old map.now memo.old self.old × (h < facts.now.n.facts)
            × (length ids.old ≡ length (part facts.now.lists.now (premises_span (fact_rows facts.now.records.now) h))) }
        ensures same_tables { SameTables store.old store.new }
        ensures under_as { (g : RecallsIn facts.now (terms_of store.old)) →
            PutUnder store.old store.new g.S map.now h self.old self.new result }
        ensures memo_unchanged { memo.new ≡ memo.old }
        ensures own { self.new.own ≡ self.old.own }
    {
        substitute_all(store, map, memo, facts.premises(h), ids)?;
        let judgment = substitute(store, map, memo, judgment(facts.records, h))?;
        let allowing = Allowing {
            judgment,
            premises: ids,
            general: facts.general(h),
        };
        self.allow(facts, &allowing);
        Ok(())
    }

    // The same, with as many cells of `ids` as the fact has premises, which are cleared behind it: zero before and after.
    fn context_under(
        &mut self,
        facts: &Facts<'_>,
        store: &mut Store<'_>,
        map: &[u32],
        memo: &mut [u32],
        h: usize,
        ids: &mut [u32],
    ) -> Result<(), Row>
        requires { ContextIn facts.now store.old map.now memo.old self.old × (h < facts.now.n.facts) × (ids.old ≡ replicate IDS 0) }
        ensures same_tables { SameTables store.old store.new }
        ensures under_as { (g : RecallsIn facts.now (terms_of store.old)) →
            PutUnder store.old store.new g.S map.now h self.old self.new result }
        ensures memo_unchanged { (memo.new ≡ memo.old) × (ids.new ≡ ids.old) }
        ensures own { self.new.own ≡ self.old.own }
    {
        let many = facts.premises(h).len();
        let answer = self.fact_under(facts, store, map, memo, h, &mut ids[..many]);
        clear(&mut ids[..many]);
        answer
    }

    // Fact h of the context under the unifier, which leaves its generalised variables alone, and what it allows.
    fn context_fact(
        &mut self,
        facts: &Facts<'_>,
        store: &mut Store<'_>,
        theta: &[u32; VARIABLES],
        memo: &mut [u32],
        h: usize,
        ids: &mut [u32],
    ) -> Result<(), Question>
        requires { ContextIn facts.now store.old theta.now memo.old self.old × (h < facts.now.n.facts) × (ids.old ≡ replicate IDS 0) }
        ensures same_tables { SameTables store.old store.new }
        ensures context_as { (g : RecallsIn facts.now (terms_of store.old)) →
            ContextAs Allowed store.old store.new g.S
            (context_fact (bindings (made_of store.old) theta.now 0) (fact_of g.S h) (made_of store.old)) one self.old self.new result }
        ensures memo_unchanged { (memo.new ≡ memo.old) × (ids.new ≡ ids.old) }
        ensures own { self.new.own ≡ self.old.own }
    {
        let variables = facts.general(h);
        if variables.is_empty() {
            return Ok(self.context_under(facts, store, theta, memo, h, ids)?);
        }
        let mut zeta = *theta;
        unbind(variables, &mut zeta);
        if !is_clear(&store.terms(), &zeta, variables) {
            return Err(Question::Captured);
        }
        Ok(self.context_under(facts, store, &zeta, memo, h, ids)?)
    }

    // All facts of the context in turn. `memo` and `ids` are scratch: zero before and after; a struct of both would be taken apart where
    // `context_under` cuts `ids`. On a refusal the sets hold what was allowed until then: whoever asks drops them.
    pub fn context_facts(
        &mut self,
        facts: &Facts<'_>,
        store: &mut Store<'_>,
        theta: &[u32; VARIABLES],
        memo: &mut [u32],
        context: &[u32],
        ids: &mut [u32],
    ) -> Result<(), Question>
        requires { ContextIn facts.now store.old theta.now memo.old self.old × Below facts.now.n.facts context.now × (ids.old ≡ replicate IDS 0) }
        ensures same_tables { SameTables store.old store.new }
        ensures context_as { (g : RecallsIn facts.now (terms_of store.old)) →
            ContextAs (List Allowed) store.old store.new g.S
            (context_facts g.S (bindings (made_of store.old) theta.now 0) context.now (made_of store.old)) all_of self.old self.new result }
        ensures memo_unchanged { (memo.new ≡ memo.old) × (ids.new ≡ ids.old) }
        ensures own { self.new.own ≡ self.old.own }
    {
        for h in context {
            self.context_fact(facts, store, theta, memo, *h as usize, ids)?;
        }
        Ok(())
    }

    // The premises of a rule, renamed and then under the unifier, each in turn: they join the set of terms. `memo` is scratch: zero before and after.
    // `place` is carried by hand: where the pattern of the next one begins is known only from what `build` answers of the one before.
    pub fn rule_premises<'t>(
        &mut self,
        rules: &Rules<'t>,
        symbols: &'t [u32],
        store: &mut Store<'_>,
        renamed: &Renamed<'_>,
        memo: &mut [u32],
    ) -> Result<(), Question>
        requires { ((n : Sizes) × RenamedIn rules.now symbols.now n store.old renamed.now) × Theta store.old.mark renamed.now.theta.now
            × (memo.old ≡ replicate TERMS 0) }
        ensures same_tables { SameTables store.old store.new }
        ensures premises_as { (n : Sizes) (g : RenamedIn rules.now symbols.now n store.old renamed.now) →
            PremisesAs store.old store.new
            (rule_premises (renaming g.xs) (along (bindings (made_of store.old) renamed.now.theta.now 0)) (rule g.T renamed.now.rule).premises
            (made_of store.old)) self.old self.new result }
        ensures memo_unchanged { memo.new ≡ memo.old }
        ensures others { (self.new.own ≡ self.old.own) × (self.new.fine ≡ self.old.fine) }
    {
        let theta = renamed.theta;
        let mut place = rules.words(renamed.rule).from;
        for _ in 0..rules.premises(renamed.rule) {
            let premise = rules.patterns(symbols).build(store, renamed.bound, place)?;
            let t = substitute(store, theta, memo, premise.term)?;
            insert(&mut self.plain, t);
            place = premise.end;
        }
        Ok(())
    }

    // Whether the case may rest on fact h.
    fn rests_on(&self, facts: &Facts<'_>, h: usize) -> bool
        requires { RestsIn facts.now × (h < facts.now.n.facts) }
        ensures { (g : RestsIn facts.now) → result ≡ may_rest g self.now h }
    {
        if is_plain(facts.records, h) {
            return has(&self.plain, judgment(facts.records, h));
        }
        is_assumed(facts.records, h) && has(&self.fine, h)
    }

    // Question 44: whether the case may rest on all that it rests on.
    pub fn rests_on_all(&self, facts: &Facts<'_>) -> bool
        requires { RestsIn facts.now × Below facts.now.n.facts self.now.own.now }
        ensures { (g : RestsIn facts.now) → result ≡ all (may_rest g self.now) self.now.own.now }
    {
        self.own.iter().all(|h| self.rests_on(facts, *h as usize))
    }
}
