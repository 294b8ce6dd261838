// What a fact concludes, and its entries in the lists as they stand there.
ghost use Rattle.state.specs.Records.{fact_rows};
ghost use Rattle.std.specs.Prelude.{◌≡◌, ◌*◌, ◌≤◌, length};
ghost use Rattle.rules.specs.Limits.{FACTS};
ghost use Rattle.state.specs.Rows.{hyps_span, premises_span, general_span};
ghost use Rattle.state.specs.Entries.{part};
ghost use Rattle.referring.specs.Sources.{ConcludesAs, RecallsEntries};

use crate::source::Facts;
use questions::Question;
use state::recorded::{general, hyps, is_fact, judgment, premises};

impl<'a> Facts<'a> {
    // Whether fact i is there (question 34) and concludes the term t (question 43).
    pub fn concludes(&self, i: usize, t: usize) -> Result<(), Question>
        requires { (length (fact_rows self.now.records.now) ≡ 6 * FACTS) × (self.now.n.facts ≤ FACTS) }
        ensures { ConcludesAs self.now i t result }
    {
        if !is_fact(self.n, i) {
            return Err(Question::Earlier);
        }
        if judgment(self.records, i) != t {
            return Err(Question::CaseJudgment);
        }
        Ok(())
    }

    // The hypotheses of fact i. These are three methods, as each names the field of the row that it reads; one with the reader handed in would have to carry
    // what that promises.
    pub fn hyps(&self, i: usize) -> &'a [u32]
        requires { RecallsEntries self.now i }
        ensures { result.now ≡ part self.now.lists.now (hyps_span (fact_rows self.now.records.now) i) }
    {
        hyps(self.records, i).of(self.lists)
    }

    // Its premises.
    pub fn premises(&self, i: usize) -> &'a [u32]
        requires { RecallsEntries self.now i }
        ensures { result.now ≡ part self.now.lists.now (premises_span (fact_rows self.now.records.now) i) }
    {
        premises(self.records, i).of(self.lists)
    }

    // Its generalised variables.
    pub fn general(&self, i: usize) -> &'a [u32]
        requires { RecallsEntries self.now i }
        ensures { result.now ≡ part self.now.lists.now (general_span (fact_rows self.now.records.now) i) }
    {
        general(self.records, i).of(self.lists)
    }
}
