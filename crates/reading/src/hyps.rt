// Lists of hypotheses: indices of earlier facts that pass the test of question 40, as a set.
ghost use Rattle.std.specs.Prelude.{◌≡◌, Bool};
ghost use Rattle.rules.specs.Sexp.{list};
ghost use Rattle.rules.specs.State.{Fact as StateFact, is_plain};
ghost use Rattle.reading.specs.Lent.{FactsItemIn, FactsItemsIn};
ghost use Rattle.reading.specs.Answers.{HypsAs};
ghost use Rattle.reading.specs.Tested.{Asks, Tests};

use crate::reader::Reader;
use facts::Fact;
use questions::Question;
use rules::FACTWORDS;
use sexp::items;
use state::recorded::{is_assumed, is_plain};
use terms::sets::insert;

impl Reader<'_> {
    // The facts whose numbers the items spell: each passes the test.
    fn hyp_each<F: Fn(&[Fact], usize) -> bool>(
        &self,
        facts: &[Fact],
        cells: &[u32],
        passes: F,
    ) -> Result<[u64; FACTWORDS], Question>
        requires items { FactsItemsIn self.now facts.now cells.now }
        requires callable { Asks F.Fn passes facts.now }
        ensures { (g : FactsItemsIn self.now facts.now cells.now) (p : StateFact → Bool) → Tests F.Fn passes facts.now g.S p → HypsAs p g.S (list g.xs) result }
    {
        let mut set = [0u64; FACTWORDS];
        for item in items::all(cells) {
            let i = self.earlier(item)?;
            if !passes(facts, i) {
                return Err(Question::Hypothesis);
            }
            insert(&mut set, i);
        }
        Ok(set)
    }

    // The same of the facts that the first item lists.
    fn hyp_list<F: Fn(&[Fact], usize) -> bool>(
        &self,
        facts: &[Fact],
        cells: &[u32],
        passes: F,
    ) -> Result<[u64; FACTWORDS], Question>
        requires item { FactsItemIn self.now facts.now cells.now }
        requires callable { Asks F.Fn passes facts.now }
        ensures { (g : FactsItemIn self.now facts.now cells.now) (p : StateFact → Bool) → Tests F.Fn passes facts.now g.S p → HypsAs p g.S g.x result }
    {
        let inner = items::list(cells, 0).ok_or(Question::Earlier)?;
        self.hyp_each(facts, inner, passes)
    }

    // Plain hypotheses.
    pub fn plain_hyps(&self, facts: &[Fact], cells: &[u32]) -> Result<[u64; FACTWORDS], Question>
        requires { FactsItemIn self.now facts.now cells.now }
        ensures { (g : FactsItemIn self.now facts.now cells.now) → HypsAs is_plain g.S g.x result }
    {
        self.hyp_list(facts, cells, is_plain)
    }

    // Any hypotheses.
    pub fn any_hyps(&self, facts: &[Fact], cells: &[u32]) -> Result<[u64; FACTWORDS], Question>
        requires { FactsItemIn self.now facts.now cells.now }
        ensures { (g : FactsItemIn self.now facts.now cells.now) → HypsAs (λ f. f.assumed) g.S g.x result }
    {
        self.hyp_list(facts, cells, is_assumed)
    }
}
