// The case of a rule that meets the hypothesis, judged under the unifier: its fact concludes the judgment (questions 34 and 43), and rests on what is
// allowed (question 44).
ghost use Rattle.state.specs.Records.{fact_rows};
ghost use Rattle.std.specs.Prelude.{◌≡◌, get_or};
ghost use Rattle.rules.specs.Tree.{var};
ghost use Rattle.rules.specs.Theory.{rule};
ghost use Rattle.rules.specs.Invert.{renaming};
ghost use Rattle.terms.specs.declared.store.Terms.{Terms};
ghost use Rattle.terms.specs.Lent.{SameTables, made_of, tree_of};
ghost use Rattle.terms.specs.Sets.{holds};
ghost use Rattle.terms.specs.Theta.{bindings};
ghost use Rattle.state.specs.Entries.{part};
ghost use Rattle.referring.specs.Sources.{RecallsIn};
ghost use Rattle.inversion.specs.InvertRules.{judged, judges, own_span, verdict_of};
ghost use Rattle.inversion.specs.Inverting.{judgment_in, JudgingIn, VerdictIn};
ghost use Rattle.reading.specs.Answers.{PassedAs};

use crate::inverting::Inverting;
use casework::context::{Grounds, Renamed};
use questions::Question;
use referring::source::Facts;
use state::recorded::is_fact;
use terms::store::Store;
use terms::substitute::substitute;

// The hypotheses of fact i; none where there is no such fact.
fn own_hyps<'a>(facts: &Facts<'a>, i: usize) -> &'a [u32]
    requires { (t : Terms) × RecallsIn facts.now t }
    ensures { result.now ≡ part facts.now.lists.now (own_span (fact_rows facts.now.records.now) facts.now.n i) }
{
    if is_fact(facts.n, i) {
        return facts.hyps(i);
    }
    &[]
}

// Questions 34, 43 and 44 of a case: its fact i is there, concludes t, and rests on what is allowed.
fn verdict(facts: &Facts<'_>, i: usize, t: usize, grounds: &Grounds<'_>) -> Result<(), Question>
    requires { VerdictIn facts.now i t grounds.now.own.now }
    ensures { (g : VerdictIn facts.now i t grounds.now.own.now) →
        result ≡ verdict_of g.given.S g.given.trees i (get_or g.given.trees t (var 0)) (holds grounds.now.plain) (holds grounds.now.fine) }
{
    facts.concludes(i, t)?;
    if !grounds.rests_on_all(facts) {
        return Err(Question::CaseHypotheses);
    }
    Ok(())
}

impl Inverting<'_> {
    // The case's judgment is t under the unifier: what the case may rest on, then its fact i.
    fn judge_on(
        &self,
        store: &mut Store<'_>,
        renamed: &Renamed<'_>,
        t: usize,
        i: usize,
        memo: &mut [u32],
        ids: &mut [u32],
    ) -> Result<(), Question>
        requires { JudgingIn self.now store.old renamed.now t memo.old ids.old }
        ensures same_tables { SameTables store.old store.new }
        ensures judged_as { (g : JudgingIn self.now store.old renamed.now t memo.old ids.old) → let s = store.old in
            PassedAs s store.new (judged g.recalls.S (rule g.renamed.T renamed.now.rule) (renaming g.renamed.xs) (bindings (made_of s) renamed.now.theta.now 0)
            self.now.context.now i (tree_of s t) (made_of s)) result }
        ensures memo_unchanged { (memo.new ≡ memo.old) × (ids.new ≡ ids.old) }
    {
        let facts = self.source.facts();
        let mut grounds = Grounds::none(own_hyps(&facts, i));
        let symbols = self.source.reader.symbols;
        grounds.rule_premises(&self.rules, symbols, store, renamed, memo)?;
        grounds.context_facts(&facts, store, renamed.theta, memo, self.context, ids)?;
        verdict(&facts, i, t, &grounds)
    }

    // A case whose fact is i, of a rule that meets the hypothesis.
    pub fn judge(
        &self,
        store: &mut Store<'_>,
        renamed: &Renamed<'_>,
        i: usize,
        memo: &mut [u32],
        ids: &mut [u32],
    ) -> Result<(), Question>
        requires { JudgingIn self.now store.old renamed.now self.now.judgment memo.old ids.old }
        ensures same_tables { SameTables store.old store.new }
        ensures judged_as { (g : JudgingIn self.now store.old renamed.now self.now.judgment memo.old ids.old) → let s = store.old in
            PassedAs s store.new (judges g.recalls.S (rule g.renamed.T renamed.now.rule) (renaming g.renamed.xs) (bindings (made_of s) renamed.now.theta.now 0)
            self.now.context.now i (judgment_in self.now s) (made_of s)) result }
        ensures memo_unchanged { (memo.new ≡ memo.old) × (ids.new ≡ ids.old) }
    {
        let theta = renamed.theta;
        let t = substitute(store, theta, memo, self.judgment)?;
        self.judge_on(store, renamed, t, i, memo, ids)
    }
}
