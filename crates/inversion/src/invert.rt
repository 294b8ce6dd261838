// `(invert N K (HYP...) JUDGMENT (CASE...))`: the plain hypothesis K was derived by some rule of its predicate. Each rule whose conclusion unifies with it
// has a case, a fact that concludes the judgment under the unifier.
ghost use Rattle.std.specs.Prelude.{◌≡◌, List, ℕ, ◌<◌, ◌≤◌, length, replicate};
ghost use Rattle.rules.specs.Limits.{VARIABLES, TERMS};
ghost use Rattle.rules.specs.State.{Var};
ghost use Rattle.rules.specs.Invert.{Inversion, invert, taken_vars};
ghost use Rattle.terms.specs.Lent.{SameTables, made_of, tree_made};
ghost use Rattle.terms.specs.Sets.{holds};
ghost use Rattle.state.specs.Held.{VarsHeld};
ghost use Rattle.referring.specs.Sources.{RecallsIn, facts_of};
ghost use Rattle.terms.specs.Table.{Below};
ghost use Rattle.referring.specs.Ids.{IDS};
ghost use Rattle.inversion.specs.InvertRules.{vars_with};
ghost use Rattle.inversion.specs.Inversions.{hypothesis_of, HypothesisAs, invert_on};
ghost use Rattle.inversion.specs.Inverting.{hypothesis_in, judgment_in, NamesHypothesis, InvertsForm, InvertsOn, InvertedOnAs, InvertedAs};

use crate::inverting::{Inverting, Variables};
use casework::cases::read_cases;
use kernel::rule_readers::Rules;
use questions::Question;
use referring::source::Source;
use referring::support::{Derived, Support};
use rules::{FACTS, FACTWORDS, TERMWORDS, VARIABLES, VARIABLEWORDS};
use sexp::items;
use state::recorded::{is_plain, judgment as judgment_of};
use state::vars::put_made_var;
use terms::sets::{insert, write_out};
use terms::store::{Store, Terms};
use terms::variables::visit;

// The rows of the variables from `count` on, which were made and have no name.
pub fn put_made(vars: &mut [u32], count: usize, made: &Variables)
    requires { ((goals : List ℕ) × (text : List ℕ) × (vs : List Var) × VarsHeld goals text vars.old count vs) × (count ≤ made.now.count) × (made.now.count ≤ VARIABLES) }
    ensures { (goals text : List ℕ) (vs : List Var) → VarsHeld goals text vars.old count vs →
        VarsHeld goals text vars.new made.now.count (vars_with vs made.now.sorts made.now.count) }
{
    for v in count..made.count {
        put_made_var(vars, v, made.sorts[v] as usize);
    }
}

impl Inverting<'_> {
    // The variables of the hypothesis, of the judgment and of the facts of the context, which a case's variables must be new to, as a set.
    fn taken_vars(&self, terms: &Terms<'_>) -> [u64; VARIABLEWORDS]
        requires { RecallsIn (facts_of self.now.source) terms.now × (self.now.hypothesis < terms.now.mark.terms) × (self.now.judgment < terms.now.mark.terms)
            × Below self.now.source.reader.n.facts self.now.context.now }
        ensures { (g : RecallsIn (facts_of self.now.source) terms.now) (Y : Inversion) →
            Y.hypothesis ≡ tree_made terms.now self.now.hypothesis → Y.judgment ≡ tree_made terms.now self.now.judgment →
            Y.context ≡ self.now.context.now → holds result ≡ taken_vars g.S Y }
    {
        let facts = self.source.facts();
        let mut set = [0u64; VARIABLEWORDS];
        let mut seen = [0u64; TERMWORDS];
        visit(terms, self.hypothesis, &mut seen, &mut set);
        visit(terms, self.judgment, &mut seen, &mut set);
        for h in self.context {
            facts.mention(terms, *h as usize, &mut seen, &mut set);
        }
        set
    }

    // The rest of the form behind its judgment; `names`, whatever it held, gets the variables that there are then. `memo` and `ids` are scratch: zero
    // before and after.
    fn invert_on(
        &self,
        store: &mut Store<'_>,
        cells: &[u32],
        memo: &mut [u32],
        ids: &mut [u32],
        names: &mut Variables,
    ) -> Result<(), Question>
        requires inverts_on { InvertsOn self.now store.old cells.now }
        requires empty { (memo.old ≡ replicate TERMS 0) × (ids.old ≡ replicate IDS 0) }
        ensures same_tables { SameTables store.old store.new }
        ensures inverted_on_as { (g : InvertsOn self.now store.old cells.now) → let s = store.old in let v = self.now in
            InvertedOnAs s store.new g.form.S
            (invert_on g.form.S g.form.xs (hypothesis_in v s) (judgment_in v s) v.context.now (made_of s))
            names.new result }
        ensures memo_unchanged { (memo.new ≡ memo.old) × (ids.new ≡ ids.old) }
    {
        let inner = items::list(cells, 5).ok_or(Question::Cases)?;
        let reader = &self.source.reader;
        read_cases(reader, inner)?;
        names.taken = self.taken_vars(&store.terms());
        names.sorts = [0; VARIABLES];
        names.count = reader.n.vars;
        self.all_rules(store, inner, names, memo, ids)
    }
}

// The hypothesis that a form inverts, by the number of its fact, and those that the result rests on.
#[derive(Clone, Copy)]
pub struct Hypotheses {
    pub fact: usize,
    pub hyps: [u64; FACTWORDS],
}

// That of the form.
fn hypothesis(source: &Source<'_>, cells: &[u32]) -> Result<Hypotheses, Question>
    requires { NamesHypothesis source.now cells.now }
    ensures { (g : NamesHypothesis source.now cells.now) → HypothesisAs g.S source.now.reader.n (hypothesis_of g.S g.xs) result }
{
    let fact = source.earlier(items::from(cells, 2))?;
    if !is_plain(source.records, fact) {
        return Err(Question::Hypothesis);
    }
    let listed = items::from(cells, 3);
    let hyps = source.reader.any_hyps(source.records, listed)?;
    Ok(Hypotheses { fact, hyps })
}

// The form, whose items the cells hold. `vars`, whatever it held, gets the variables with those made, whose rows are for the caller to write (`put_made`).
// It is lent and no part of the answer: as 2 KB in a Result it was set to zero and copied by each function that hands it on, and the check of `mid` took 4 %
// longer. `memo` and `ids` are scratch: zero before and after. A struct of both would be taken apart below: `context_under` of casework cuts `ids`, and
// unification is lent `memo` alone.
pub fn invert(
    source: &Source<'_>,
    rules: &Rules<'_>,
    store: &mut Store<'_>,
    cells: &[u32],
    memo: &mut [u32],
    ids: &mut [u32],
    vars: &mut Variables,
) -> Result<Derived, Question>
    requires inverts_form { InvertsForm source.now rules.now store.old cells.now }
    requires empty { (memo.old ≡ replicate TERMS 0) × (ids.old ≡ replicate IDS 0) }
    ensures same_tables { SameTables store.old store.new }
    ensures inverted_as { (g : InvertsForm source.now rules.now store.old cells.now) →
        InvertedAs store.old store.new g.S (invert g.S g.xs (made_of store.old)) vars.new result }
    ensures memo_unchanged { (memo.new ≡ memo.old) × (ids.new ≡ ids.old) }
{
    let Hypotheses { fact, hyps } = hypothesis(source, cells)?;
    let judgment = source.reader.judgment(store, items::from(cells, 4))?;
    // cells for as many as there can be, since there is no heap, and the core stands on `std` alone
    let mut list = [0u32; FACTS];
    let many = write_out(&hyps, &mut list);
    let inverting = Inverting {
        source: *source,
        rules: *rules,
        hypothesis: judgment_of(source.records, fact),
        judgment,
        context: &list[..many],
    };
    inverting.invert_on(store, cells, memo, ids, vars)?;
    let mut support = Support {
        hyps,
        ..Support::NONE
    };
    insert(&mut support.hyps, fact);
    Ok(Derived {
        judgment,
        instances: 0,
        support,
    })
}
