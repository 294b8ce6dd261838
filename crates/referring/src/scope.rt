// Variables of terms and facts, as sets, and question 39: what is used must be in the conclusion or free in the hypotheses. Over all terms of one
// question a shared subterm is visited once; only a hypothesis that generalises variables is visited by itself.
//
// The terms that were visited (`seen`) and the set are lent as two: whoever asks keeps the set and hands it on, and drops the other. In a struct of
// both each join, difference and search of sets would reach for its half; and what was visited is right only beside the terms, so that no type can
// state it.
ghost use Rattle.std.specs.Prelude.{◌≡◌, [], ◌∷◌, ◌<◌, length};
ghost use Rattle.rules.specs.Find.{union, minus, rising, least};
ghost use Rattle.rules.specs.Tree.{variables, variables_of};
ghost use Rattle.rules.specs.Store.{Made};
ghost use Rattle.rules.specs.State.{mentioned, free, hyp_vars};
ghost use Rattle.rules.specs.Reference.{scoped};
ghost use Rattle.terms.specs.Table.{args_of};
ghost use Rattle.terms.specs.Lent.{terms_made, tree_made};
ghost use Rattle.terms.specs.Patterns.{cells_of};
ghost use Rattle.terms.specs.Collect.{SeenIn};
ghost use Rattle.terms.specs.Sets.{holds, counted_from_1};
ghost use Rattle.state.specs.Members.{Under};
ghost use Rattle.referring.specs.Recall.{fact_of};
ghost use Rattle.referring.specs.Derived.{cell_vars};
ghost use Rattle.referring.specs.Sources.{RecallsIn, ReadableAllIn, ReadableCellsIn, GatheredIn, ScopedBy};

use crate::references::insert_all;
use crate::source::Facts;
use questions::Question;
use rules::{FACTS, FACTWORDS, TERMWORDS, VARIABLEWORDS};
use state::recorded::judgment;
use terms::patterns::Bound;
use terms::sets::{count, lowest_outside, minus_from, union_into, write_out};
use terms::store::Terms;
use terms::variables::visit;

// The variables of the terms join the set.
pub fn visit_all(
    terms: &Terms<'_>,
    ids: &[u32],
    seen: &mut [u64; TERMWORDS],
    set: &mut [u64; VARIABLEWORDS],
)
    requires readable_all { ReadableAllIn terms.now ids.now }
    requires seen { SeenIn terms.now seen.old set.old }
    ensures { GatheredIn terms.now (variables_of (args_of (terms_made terms.now) ids.now)) set.old seen.new set.new }
{
    for id in ids {
        visit(terms, *id as usize, seen, set);
    }
}

impl Facts<'_> {
    // The variables of fact i's judgment and premises join the set.
    pub fn mention(
        &self,
        terms: &Terms<'_>,
        i: usize,
        seen: &mut [u64; TERMWORDS],
        set: &mut [u64; VARIABLEWORDS],
    )
        requires recalls { RecallsIn self.now terms.now × (i < self.now.n.facts) }
        requires seen { SeenIn terms.now seen.old set.old }
        ensures { (g : RecallsIn self.now terms.now) → GatheredIn terms.now (mentioned (fact_of g.S i)) set.old seen.new set.new }
    {
        visit(terms, judgment(self.records, i), seen, set);
        visit_all(terms, self.premises(i), seen, set);
    }

    // The variables that a hypothesis does not generalise join the set.
    fn mention_free(&self, terms: &Terms<'_>, i: usize, set: &mut [u64; VARIABLEWORDS])
        requires { RecallsIn self.now terms.now × (i < self.now.n.facts) }
        ensures { (g : RecallsIn self.now terms.now) → holds set.new ≡ union (holds set.old) (free (fact_of g.S i)) }
    {
        let mut seen = [0u64; TERMWORDS];
        let mut all = [0u64; VARIABLEWORDS];
        let mut bound = [0u64; VARIABLEWORDS];
        self.mention(terms, i, &mut seen, &mut all);
        insert_all(self.general(i), &mut bound);
        minus_from(&mut all, &bound);
        union_into(set, &all);
    }

    // The variables that hypothesis i does not generalise join the set. Where it generalises none, what was visited is used, and grows.
    fn join_free(
        &self,
        terms: &Terms<'_>,
        i: usize,
        seen: &mut [u64; TERMWORDS],
        set: &mut [u64; VARIABLEWORDS],
    )
        requires recalls { RecallsIn self.now terms.now × (i < self.now.n.facts) }
        requires seen { SeenIn terms.now seen.old set.old }
        ensures { (g : RecallsIn self.now terms.now) → GatheredIn terms.now (free (fact_of g.S i)) set.old seen.new set.new }
    {
        if self.general(i).is_empty() {
            self.mention(terms, i, seen, set);
            return;
        }
        self.mention_free(terms, i, set);
    }

    // The variables that are free in hypotheses join the set, one hypothesis after the other. There is no heap for a list of these: it is written into an
    // array, with its count. An iterator over members is no plainer: it would be a struct with a `next` and a promise of its own, for this walk alone, since
    // those who write members out keep the list, and the programs ask each number. A chain that filters 0..FACTS would ask for FACTS numbers where a few words
    // tell.
    fn join_hyps(
        &self,
        terms: &Terms<'_>,
        hyps: &[u64; FACTWORDS],
        seen: &mut [u64; TERMWORDS],
        set: &mut [u64; VARIABLEWORDS],
    )
        requires recalls { RecallsIn self.now terms.now × Under self.now.n.facts (holds hyps.now) }
        requires seen { SeenIn terms.now seen.old set.old }
        ensures { (g : RecallsIn self.now terms.now) →
            holds set.new ≡ union (holds set.old) (hyp_vars g.S.facts (rising self.now.n.facts (holds hyps.now))) }
    {
        let mut ids = [0u32; FACTS];
        let count = write_out(hyps, &mut ids);
        for id in &ids[..count] {
            self.join_free(terms, *id as usize, seen, set);
        }
    }

    // The variables that are free in hypotheses join the set; these are facts, given as a set. Most facts rest on none, and then no list is made.
    pub fn hyp_vars(
        &self,
        terms: &Terms<'_>,
        hyps: &[u64; FACTWORDS],
        seen: &mut [u64; TERMWORDS],
        set: &mut [u64; VARIABLEWORDS],
    )
        requires recalls { RecallsIn self.now terms.now × Under self.now.n.facts (holds hyps.now) }
        requires seen { SeenIn terms.now seen.old set.old }
        ensures { (g : RecallsIn self.now terms.now) →
            holds set.new ≡ union (holds set.old) (hyp_vars g.S.facts (rising self.now.n.facts (holds hyps.now))) }
    {
        if count(hyps) == 0 {
            return;
        }
        self.join_hyps(terms, hyps, seen, set);
    }

    // Question 39: the lowest variable in use that is neither in the conclusion nor free in the hypotheses.
    pub fn outside(
        &self,
        terms: &Terms<'_>,
        used: &[u64; VARIABLEWORDS],
        conclusion: usize,
        hyps: &[u64; FACTWORDS],
    ) -> Option<usize>
        requires recalls { RecallsIn self.now terms.now × Under self.now.n.facts (holds hyps.now) × (conclusion < terms.now.mark.terms) }
        ensures { (g : RecallsIn self.now terms.now) → counted_from_1 result ≡ least (length g.S.vars) (minus (holds used.now)
            (union (variables (tree_made terms.now conclusion)) (hyp_vars g.S.facts (rising (length g.S.facts) (holds hyps.now))))) }
    {
        let mut seen = [0u64; TERMWORDS];
        let mut inside = [0u64; VARIABLEWORDS];
        visit(terms, conclusion, &mut seen, &mut inside);
        self.hyp_vars(terms, hyps, &mut seen, &mut inside);
        let count = self.n.vars;
        lowest_outside(used, &inside).filter(|v| *v < count)
    }

    // Question 39, as the definition puts it: the lowest variable that is outside is its detail, counted from 1.
    pub fn scoped(
        &self,
        terms: &Terms<'_>,
        used: &[u64; VARIABLEWORDS],
        conclusion: usize,
        hyps: &[u64; FACTWORDS],
    ) -> Result<(), Question>
        requires recalls { RecallsIn self.now terms.now × Under self.now.n.facts (holds hyps.now) × (conclusion < terms.now.mark.terms) }
        ensures { (g : RecallsIn self.now terms.now) (M : Made) →
            ScopedBy (scoped g.S (holds used.now) (tree_made terms.now conclusion) (rising (length g.S.facts) (holds hyps.now)) M) M result }
    {
        match self.outside(terms, used, conclusion, hyps) {
            None => Ok(()),
            Some(v) => Err(Question::Scope(v + 1)),
        }
    }
}

// The variables of the term, where there is one, join the set. It serves `visit_cells` and `visit_bound`, two, since a map has cells and a rule's variables
// options: one over an iterator of options would have to promise what each item gives.
fn visit_one(
    terms: &Terms<'_>,
    term: Option<u32>,
    seen: &mut [u64; TERMWORDS],
    set: &mut [u64; VARIABLEWORDS],
)
    requires readable_cells { ReadableCellsIn terms.now (counted_from_1 term ∷ []) }
    requires seen { SeenIn terms.now seen.old set.old }
    ensures { GatheredIn terms.now (cell_vars (terms_made terms.now) (counted_from_1 term ∷ [])) set.old seen.new set.new }
{
    if let Some(id) = term {
        visit(terms, id as usize, seen, set);
    }
}

// The variables of the terms in the cells, each a number with 1 added or 0, join the set.
pub fn visit_cells(
    terms: &Terms<'_>,
    cells: &[u32],
    seen: &mut [u64; TERMWORDS],
    set: &mut [u64; VARIABLEWORDS],
)
    requires readable_cells { ReadableCellsIn terms.now cells.now }
    requires seen { SeenIn terms.now seen.old set.old }
    ensures { GatheredIn terms.now (cell_vars (terms_made terms.now) cells.now) set.old seen.new set.new }
{
    for cell in cells {
        visit_one(terms, cell.checked_sub(1), seen, set);
    }
}

// The variables of the terms that a rule's variables are bound to join the set.
pub fn visit_bound(
    terms: &Terms<'_>,
    bound: &Bound,
    seen: &mut [u64; TERMWORDS],
    set: &mut [u64; VARIABLEWORDS],
)
    requires readable_cells { ReadableCellsIn terms.now (cells_of bound.now) }
    requires seen { SeenIn terms.now seen.old set.old }
    ensures { GatheredIn terms.now (cell_vars (terms_made terms.now) (cells_of bound.now)) set.old seen.new set.new }
{
    for term in bound {
        visit_one(terms, *term, seen, set);
    }
}
