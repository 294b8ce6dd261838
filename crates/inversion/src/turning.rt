// One rule after the other: its variables renamed (question 42), its conclusion unified with the hypothesis (46, 47), its case judged.
ghost use Rattle.std.specs.Prelude.{◌≡◌, ◌<◌, replicate};
ghost use Rattle.rules.specs.Limits.{TERMS};
ghost use Rattle.rules.specs.Theory.{rule, rules_of};
ghost use Rattle.rules.specs.Invert.{invert_rule, invert_rules, predicate_of};
ghost use Rattle.terms.specs.Lent.{GoodTerms, SameTables, made_of, tree_made};
ghost use Rattle.unification.specs.Unify.{SameScratch, ScratchKept};
ghost use Rattle.referring.specs.Ids.{IDS};
ghost use Rattle.inversion.specs.InvertRules.{vars_with, lacks, has_case};
ghost use Rattle.inversion.specs.Inverting.{EmptyScratch, hypothesis_in, judgment_in, LackingIn, LackedAs, HavingIn, TurningIn, TurnedAs};
ghost use Rattle.reading.specs.Answers.{PassedAs};

use crate::inverting::{Inverting, Renaming, RuleVars, Variables};
use casework::cases::find_case;
use casework::context::Renamed;
use questions::Question;
use rules::{PAIRS, TERMWORDS, VARIABLES};
use terms::heads::Head;
use terms::store::{Store, Terms};
use unification::unify::Scratch;

// The predicate of the term s; where it is a variable, number 0, as the definition has it.
fn predicate_of(terms: &Terms<'_>, s: usize) -> usize
    requires { GoodTerms terms.now × (s < terms.now.mark.terms) }
    ensures { result ≡ predicate_of (tree_made terms.now s) }
{
    match Head::from(terms.node(s)[0]) {
        Head::Symbol(p) => p,
        Head::Variable(_) => 0,
    }
}

impl Inverting<'_> {
    // A rule without a case: it must not meet the hypothesis.
    fn without_case(
        &self,
        store: &mut Store<'_>,
        need: &RuleVars<'_>,
        names: &mut Variables,
        scratch: &mut Scratch<'_>,
    ) -> Result<(), Question>
        requires lacking { LackingIn self.now store.old need.now names.old }
        requires empty { EmptyScratch scratch.old }
        ensures same_tables { SameTables store.old store.new }
        ensures lacked_as { (g : LackingIn self.now store.old need.now names.old) →
            LackedAs store.old store.new g.vs
            (lacks (vars_with g.vs names.old.sorts names.old.count) (hypothesis_in self.now store.old) (rule g.T need.now.rule) (made_of store.old))
            names.old names.new result }
        ensures taken_unchanged { names.new.taken ≡ names.old.taken }
        ensures same_scratch { SameScratch scratch.old scratch.new }
        ensures scratch_kept { ScratchKept scratch.old scratch.new }
    {
        let list = need.make(names)?;
        let own = Renaming {
            rule: need.rule,
            vars: &list[..need.count],
            count: names.count,
        };
        let mut theta = [0u32; VARIABLES];
        match self.meet(store, &own, &mut theta, scratch)? {
            None => Ok(()),
            Some(_) => Err(Question::MissingCase),
        }
    }

    // A rule with a case, whose variables are those of the renaming, and whose fact is i: it must meet the hypothesis, and the case is judged.
    fn with_case(
        &self,
        store: &mut Store<'_>,
        own: &Renaming<'_>,
        i: usize,
        scratch: &mut Scratch<'_>,
        ids: &mut [u32],
    ) -> Result<(), Question>
        requires having { HavingIn self.now store.old own.now ids.old }
        requires empty { EmptyScratch scratch.old }
        ensures same_tables { SameTables store.old store.new }
        ensures judged_as { (g : HavingIn self.now store.old own.now ids.old) →
            PassedAs store.old store.new (has_case g.recalls.S own.now.vars.now own.now.count (hypothesis_in self.now store.old)
            (rule g.recalls.S.theory own.now.rule) self.now.context.now i (judgment_in self.now store.old) (made_of store.old)) result }
        ensures same_scratch { SameScratch scratch.old scratch.new }
        ensures scratch_kept { ScratchKept scratch.old scratch.new }
        ensures ids_unchanged { ids.new ≡ ids.old }
    {
        let mut theta = [0u32; VARIABLES];
        let Some(bound) = self.meet(store, own, &mut theta, scratch)? else {
            return Err(Question::CannotConclude);
        };
        let renamed = Renamed {
            rule: own.rule,
            bound: &bound,
            theta: &theta,
        };
        let memo = &mut *scratch.memo;
        self.judge(store, &renamed, i, memo, ids)
    }

    // Rule r. `scratch` and `ids` are zero before and after.
    fn invert_rule(
        &self,
        store: &mut Store<'_>,
        cases: &[u32],
        r: usize,
        names: &mut Variables,
        scratch: &mut Scratch<'_>,
        ids: &mut [u32],
    ) -> Result<(), Question>
        requires turning { TurningIn self.now cases.now store.old names.old }
        requires r_lt_rules { (r < self.now.source.reader.n.rules) × EmptyScratch scratch.old × (ids.old ≡ replicate IDS 0) }
        ensures same_tables { SameTables store.old store.new }
        ensures turned_as { (g : TurningIn self.now cases.now store.old names.old) →
            TurnedAs store.old store.new g.S g.inversion (invert_rule g.S g.inversion (rule g.S.theory r) g.names (made_of store.old)) names.old names.new result }
        ensures same_scratch { SameScratch scratch.old scratch.new }
        ensures scratch_kept { ScratchKept scratch.old scratch.new }
        ensures ids_unchanged { ids.new ≡ ids.old }
    {
        let need = RuleVars {
            rules: self.rules,
            rule: r,
            count: self.rules.variables(r),
        };
        let reader = &self.source.reader;
        let name = self.rules.rule_name(r).of(reader.theory);
        let Some(case) = find_case(reader.text, cases, name) else {
            return self.without_case(store, &need, names, scratch);
        };
        let renamed = self.case_vars(case, &need, &mut names.taken)?;
        let own = Renaming {
            rule: r,
            vars: &renamed.list[..need.count],
            count: names.count,
        };
        self.with_case(store, &own, renamed.fact, scratch, ids)
    }

    // All rules of the predicate in turn. `scratch` and `ids` are zero before and after.
    fn invert_rules(
        &self,
        store: &mut Store<'_>,
        cases: &[u32],
        names: &mut Variables,
        scratch: &mut Scratch<'_>,
        ids: &mut [u32],
    ) -> Result<(), Question>
        requires turning { TurningIn self.now cases.now store.old names.old }
        requires empty { EmptyScratch scratch.old × (ids.old ≡ replicate IDS 0) }
        ensures same_tables { SameTables store.old store.new }
        ensures turned_as { (g : TurningIn self.now cases.now store.old names.old) →
            TurnedAs store.old store.new g.S g.inversion
            (invert_rules g.S g.inversion (rules_of g.S.theory (predicate_of g.inversion.hypothesis)) g.names (made_of store.old)) names.old names.new result }
        ensures same_scratch { SameScratch scratch.old scratch.new }
        ensures scratch_kept { ScratchKept scratch.old scratch.new }
        ensures ids_unchanged { ids.new ≡ ids.old }
    {
        let reader = &self.source.reader;
        let predicate = predicate_of(&store.terms(), self.hypothesis);
        // no filter over the range: the lemma of what a loop over a filter yields (`YieldsList-from_filter`) wants the closure's answer as a function of every
        // number, and `concludes` says its answer of the rules of the theory alone, below their count; `find` in `Rules::next_rule` can do with that
        for r in 0..reader.n.rules {
            if !self.rules.concludes(reader.symbols, r, predicate) {
                continue;
            }
            self.invert_rule(store, cases, r, names, scratch, ids)?;
        }
        Ok(())
    }

    // The same with tables for unification, made once. `memo` and `ids` are zero before and after.
    pub fn all_rules(
        &self,
        store: &mut Store<'_>,
        cases: &[u32],
        names: &mut Variables,
        memo: &mut [u32],
        ids: &mut [u32],
    ) -> Result<(), Question>
        requires turning { TurningIn self.now cases.now store.old names.old }
        requires empty { (memo.old ≡ replicate TERMS 0) × (ids.old ≡ replicate IDS 0) }
        ensures same_tables { SameTables store.old store.new }
        ensures turned_as { (g : TurningIn self.now cases.now store.old names.old) →
            TurnedAs store.old store.new g.S g.inversion
            (invert_rules g.S g.inversion (rules_of g.S.theory (predicate_of g.inversion.hypothesis)) g.names (made_of store.old)) names.old names.new result }
        ensures memo_unchanged { (memo.new ≡ memo.old) × (ids.new ≡ ids.old) }
    {
        let mut map = [0u32; VARIABLES];
        let mut pairs = [0u32; 2 * PAIRS];
        let mut seen = [0u64; TERMWORDS];
        let mut scratch = Scratch {
            map: &mut map,
            memo,
            pairs: &mut pairs,
            seen: &mut seen,
            waiting: 0,
        };
        self.invert_rules(store, cases, names, &mut scratch, ids)
    }
}
