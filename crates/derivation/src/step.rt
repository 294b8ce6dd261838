// `(step N RULE (REF...) ITEM...)`: an instance of a rule, from earlier facts.
ghost use Rattle.std.specs.Prelude.{◌≡◌, ℕ, length, replicate, IsFalse, OnErr};
ghost use Rattle.rules.specs.Limits.{TERMS, PATTERNS};
ghost use Rattle.rules.specs.Find.{rising};
ghost use Rattle.rules.specs.Sexp.{count, rest};
ghost use Rattle.rules.specs.Tree.{Tree};
ghost use Rattle.rules.specs.Theory.{rule as rule_in};
ghost use Rattle.rules.specs.State.{Fact};
ghost use Rattle.rules.specs.Step.{references, step, match_stated};
ghost use Rattle.terms.specs.Table.{args_of};
ghost use Rattle.terms.specs.Lent.{SameTables, made_of, terms_made};
ghost use Rattle.terms.specs.Sets.{holds};
ghost use Rattle.terms.specs.Patterns.{cells_of, bound_of, Stands};
ghost use Rattle.reading.specs.Answers.{ReadAs};
ghost use Rattle.referring.specs.Sources.{ReadsForm, ReadsRuleForm};
ghost use Rattle.referring.specs.Derived.{FewItems, DerivedAs, with_instances};
ghost use Rattle.derivation.specs.ItemsOf.{stated_in};
ghost use Rattle.derivation.specs.Stepping.{MatchedAs, StatedIn, ConcludableIn, ReadsConclusion, ScopesIn, KnownRule, RefsAs, UsedAs, ScopedAs, concluded, from_items, in_scope, by_rule};

use crate::items::{OneRule, Said, read_items};
use cells::clear;
use kernel::rule_readers::Rules;
use questions::Question;
use reading::reader::Reader;
use referring::scope::{visit_all, visit_bound};
use referring::source::Source;
use referring::support::{Derived, Support};
use rules::{TERMWORDS, VARIABLEWORDS};
use sexp::items;
use terms::patterns::{Bound, Patterns};
use terms::sets::insert;
use terms::store::{Store, Terms};

// What references bring: how many of them are instances, and what they rest on.
#[derive(Clone, Copy)]
struct Brought {
    instances: usize,
    support: Support,
}

// A conclusion by its number, and the variables that are used for it, as a set.
#[derive(Clone, Copy)]
struct Concluded {
    judgment: usize,
    used: [u64; VARIABLEWORDS],
}

// All references: their judgments' numbers come into the first cells of `ids`. `memo` is scratch: zero before and after.
fn references(
    source: &Source<'_>,
    store: &mut Store<'_>,
    cells: &[u32],
    memo: &mut [u32],
    ids: &mut [u32],
) -> Result<Brought, Question>
    requires reads { ReadsForm source.now store.old cells.now 0 }
    requires memo_value { memo.old ≡ replicate TERMS 0 }
    requires few_items { FewItems cells.now (length ids.old) }
    ensures same_tables { SameTables store.old store.new }
    ensures refs_as { (g : ReadsForm source.now store.old cells.now 0) →
        RefsAs store.old store.new g.S (references g.S g.xs (made_of store.old)) ids.new (count g.xs) result }
    ensures memo_unchanged { memo.new ≡ memo.old }
{
    let facts = source.facts();
    let mut support = Support::NONE;
    let mut instances = 0;
    for (k, item) in items::all(cells).enumerate() {
        let referred = source.reference(store, item, memo)?;
        ids[k] = referred.judgment as u32;
        support.join(&facts, &referred);
        instances += usize::from(!referred.bare);
    }
    Ok(Brought { instances, support })
}

// Whether what is stated, if something is, matches the pattern at a place; if not, what is bound is as it was.
fn match_stated(
    patterns: &Patterns<'_>,
    terms: &Terms<'_>,
    bound: &mut Bound,
    place: usize,
    stated: Option<usize>,
) -> bool
    requires { StatedIn patterns.now terms.now (cells_of bound.old) place stated }
    ensures matched_as { (p : Tree) → Stands patterns.now.symbols.now patterns.now.words.now place p → let M = terms_made terms.now in
        MatchedAs M (cells_of bound.new) (match_stated p (stated_in M stated) (bound_of M (cells_of bound.old))) result }
    ensures set_back { IsFalse result → bound.new ≡ bound.old }
{
    let Some(id) = stated else {
        return true;
    };
    patterns.match_all(terms, bound, place, &[id as u32])
}

impl Said {
    // Question 38: the stated conclusion matches the rule's, where one is stated, and the terms its premises; then it is the conclusion, or the rule's is
    // built. What was matched is bound where it stands; a refusal leaves what the items say.
    fn matched(
        &mut self,
        patterns: &Patterns<'_>,
        store: &mut Store<'_>,
        first: usize,
        place: usize,
        ids: &[u32],
    ) -> Result<usize, Question>
        requires { ConcludableIn patterns.now store.old self.old first place ids.now }
        ensures same_tables { SameTables store.old store.new }
        ensures read_as { (g : ConcludableIn patterns.now store.old self.old first place ids.now) → let M = made_of store.old in
            ReadAs store.old store.new (concluded g.rule (args_of M ids.now) (stated_in M self.old.stated) (bound_of M (cells_of self.old.bound)) M) result }
        ensures set_back { OnErr result (self.new ≡ self.old) }
    {
        let before = self.bound;
        let terms = store.terms();
        if !match_stated(patterns, &terms, &mut self.bound, place, self.stated) {
            return Err(Question::Matching);
        }
        if !patterns.match_all(&terms, &mut self.bound, first, ids) {
            self.bound = before;
            return Err(Question::Matching);
        }
        match self.stated {
            Some(id) => Ok(id),
            None => match patterns.build(store, &self.bound, place) {
                Ok(built) => Ok(built.term),
                Err(question) => {
                    self.bound = before;
                    Err(question)
                }
            },
        }
    }
}

// The conclusion of a rule over its premises, which are these terms: as the items state it, or built; and the variables of the terms and of the values
// that the items give.
fn conclude(
    reader: &Reader<'_>,
    rule: &OneRule<'_>,
    store: &mut Store<'_>,
    cells: &[u32],
    ids: &[u32],
) -> Result<Concluded, Question>
    requires { ReadsConclusion reader.now rule.now store.old cells.now ids.now }
    ensures same_tables { SameTables store.old store.new }
    ensures used_as { (g : ReadsConclusion reader.now rule.now store.old cells.now ids.now) → let M = made_of store.old in
        UsedAs store.old store.new (from_items g.given.S (rule_in g.given.S.theory rule.now.number) (args_of M ids.now) g.given.xs M) result }
{
    let mut said = read_items(reader, rule, store, cells)?;
    let mut seen = [0u64; TERMWORDS];
    let mut used = [0u64; VARIABLEWORDS];
    let terms = store.terms();
    visit_all(&terms, ids, &mut seen, &mut used);
    visit_bound(&terms, &said.bound, &mut seen, &mut used);
    let OneRule { rules, number } = *rule;
    let place = rules.conclusion(reader.symbols, number);
    let first = rules.words(number).from;
    let patterns = rules.patterns(reader.symbols);
    let judgment = said.matched(&patterns, store, first, place, ids)?;
    Ok(Concluded { judgment, used })
}

// The form, whose items the cells hold. `memo` and `ids` are scratch: zero before and after; of `ids` as many cells are used, and cleared, as the rule
// has premises. They are no struct, since `ids` is handed on cut: one more would be made there, and all below would promise that its references are those lent.
pub fn step(
    source: &Source<'_>,
    rules: &Rules<'_>,
    store: &mut Store<'_>,
    cells: &[u32],
    memo: &mut [u32],
    ids: &mut [u32],
) -> Result<Derived, Question>
    requires reads { ReadsRuleForm source.now rules.now store.old cells.now 4 }
    requires memo_value { memo.old ≡ replicate TERMS 0 }
    requires ids_value { ids.old ≡ replicate PATTERNS 0 }
    ensures same_tables { SameTables store.old store.new }
    ensures derived_as { (g : ReadsRuleForm source.now rules.now store.old cells.now 4) →
        DerivedAs (Fact × ℕ) store.old store.new g.S (step g.S g.xs (made_of store.old)) with_instances result }
    ensures memo_unchanged { memo.new ≡ memo.old }
    ensures ids_unchanged { ids.new ≡ ids.old }
{
    let reader = &source.reader;
    let name = items::head(reader.text, items::from(cells, 2)).ok_or(Question::Defined)?;
    let number = rules
        .rule_named(reader.theory, reader.n.rules, name)
        .ok_or(Question::Defined)?;
    let few = rules.premises(number);
    let rule = OneRule {
        rules: *rules,
        number,
    };
    let answer = step_by(source, &rule, store, cells, memo, &mut ids[..few]);
    clear(&mut ids[..few]);
    answer
}

// The rest of the form behind the name of its rule. `ids` has a cell for each premise of the rule, of whatever content before and after.
fn step_by(
    source: &Source<'_>,
    rule: &OneRule<'_>,
    store: &mut Store<'_>,
    cells: &[u32],
    memo: &mut [u32],
    ids: &mut [u32],
) -> Result<Derived, Question>
    requires reads { ReadsRuleForm source.now rule.now.rules store.old cells.now 4 }
    requires known { KnownRule source.now.reader rule.now (length ids.old) }
    requires memo_value { memo.old ≡ replicate TERMS 0 }
    ensures same_tables { SameTables store.old store.new }
    ensures derived_as { (g : ReadsRuleForm source.now rule.now.rules store.old cells.now 4) →
        DerivedAs (Fact × ℕ) store.old store.new g.S (by_rule g.S rule.now.number g.xs (made_of store.old)) with_instances result }
    ensures memo_unchanged { memo.new ≡ memo.old }
{
    let inner = items::list(cells, 3).ok_or(Question::Premises)?;
    if items::count(inner) != ids.len() {
        return Err(Question::Premises);
    }
    let mut brought = references(source, store, inner, memo, ids)?;
    insert(&mut brought.support.footing, rule.number);
    step_on(source, rule, store, cells, ids, &brought)
}

// The rest of the form behind its references.
fn step_on(
    source: &Source<'_>,
    rule: &OneRule<'_>,
    store: &mut Store<'_>,
    cells: &[u32],
    ids: &[u32],
    brought: &Brought,
) -> Result<Derived, Question>
    requires { ScopesIn source.now rule.now store.old cells.now ids.now brought.now.support }
    ensures same_tables { SameTables store.old store.new }
    ensures scoped_as { (g : ScopesIn source.now rule.now store.old cells.now ids.now brought.now.support) → let M = made_of store.old in
        let hs = rising (length g.S.facts) (holds brought.now.support.hyps) in
        ScopedAs store.old store.new (in_scope g.S (rule_in g.S.theory rule.now.number) (args_of M ids.now) hs (rest g.xs 4) M) brought.now result }
{
    let items = items::from(cells, 4);
    let Concluded { judgment, used } = conclude(&source.reader, rule, store, items, ids)?;
    let Brought { instances, support } = *brought;
    source
        .facts()
        .scoped(&store.terms(), &used, judgment, &support.hyps)?;
    Ok(Derived {
        judgment,
        instances,
        support,
    })
}
