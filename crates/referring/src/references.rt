// Naming facts: by index, or as an instance with bindings (questions 34 to 36); and numbers that join a set, which all above use that gather facts.
ghost use Rattle.std.specs.Prelude.{◌≡◌, List, ℕ, ◌<◌, ◌*◌, length, get_or, replicate};
ghost use Rattle.rules.specs.Limits.{TERMS};
ghost use Rattle.rules.specs.Find.{union, has};
ghost use Rattle.rules.specs.Reference.{reference, instance};
ghost use Rattle.terms.specs.Lent.{SameTables, made_of};
ghost use Rattle.terms.specs.Sets.{holds};
ghost use Rattle.referring.specs.Referral.{ReferredAs};
ghost use Rattle.reading.specs.Items.{FirstItem};
ghost use Rattle.reading.specs.Earlier.{EarlierAs};
ghost use Rattle.referring.specs.Sources.{ReadsBare, ReferredBare, ReadsReference, ReadsReferences};

use crate::source::Source;
use questions::Question;
use rules::VARIABLES;
use sexp::items;
use state::recorded::{hyps as hyps_of, judgment};
use terms::sets::insert;
use terms::store::Store;
use terms::substitute::substitute;

// A judgment by its number, the fact that it comes from, and whether the fact is named bare.
#[derive(Clone, Copy, Debug, PartialEq, Eq)]
pub struct Referred {
    pub judgment: usize,
    pub fact: usize,
    pub bare: bool,
}

impl Source<'_> {
    // The earlier fact that the first item numbers.
    pub fn earlier(&self, cells: &[u32]) -> Result<usize, Question>
        requires { FirstItem self.now.reader.text.now cells.now }
        ensures { EarlierAs self.now.reader cells.now result }
    {
        self.reader.earlier(cells)
    }

    // The fact that the first item numbers, named bare.
    fn bare(&self, cells: &[u32]) -> Result<Referred, Question>
        requires { ReadsBare self.now cells.now }
        ensures { ReferredBare self.now cells.now result }
    {
        let i = self.earlier(cells)?;
        Ok(Referred {
            judgment: judgment(self.records, i),
            fact: i,
            bare: true,
        })
    }

    // The fact that the first of the items numbers, under the bindings behind it. `memo` is scratch: zero before and after.
    fn instance(
        &self,
        store: &mut Store<'_>,
        cells: &[u32],
        memo: &mut [u32],
    ) -> Result<Referred, Question>
        requires reads { ReadsReferences self.now store.old cells.now }
        requires memo_value { memo.old ≡ replicate TERMS 0 }
        ensures same_tables { SameTables store.old store.new }
        ensures referred_as { (g : ReadsReferences self.now store.old cells.now) →
            ReferredAs store.old store.new g.S (instance g.S g.xs (made_of store.old)) result }
        ensures memo_unchanged { memo.new ≡ memo.old }
    {
        if cells.is_empty() {
            return Err(Question::Earlier);
        }
        let i = self.earlier(cells)?;
        // Its row says whether there are any. `Facts::hyps` in its place would ask that the entries are right, and so would `reference` of each who calls
        // it, which asks nothing of them.
        let own = hyps_of(self.records, i);
        if own.from != own.end {
            return Err(Question::Instance);
        }
        let mut map = [0; VARIABLES];
        self.reader
            .bindings(store, items::from(cells, 1), &mut map)?;
        let term = substitute(store, &map, memo, judgment(self.records, i))?;
        Ok(Referred {
            judgment: term,
            fact: i,
            bare: false,
        })
    }

    // The reference that the first item is. `memo` is scratch: zero before and after.
    pub fn reference(
        &self,
        store: &mut Store<'_>,
        cells: &[u32],
        memo: &mut [u32],
    ) -> Result<Referred, Question>
        requires reads { ReadsReference self.now store.old cells.now }
        requires memo_value { memo.old ≡ replicate TERMS 0 }
        ensures same_tables { SameTables store.old store.new }
        ensures referred_as { (g : ReadsReference self.now store.old cells.now) →
            ReferredAs store.old store.new g.S (reference g.S g.x (made_of store.old)) result }
        ensures memo_unchanged { memo.new ≡ memo.old }
    {
        match items::list(cells, 0) {
            Some(inner) => self.instance(store, inner, memo),
            None => self.bare(cells),
        }
    }
}

// The numbers join the set.
pub fn insert_all(ids: &[u32], set: &mut [u64])
    requires { (k : ℕ) → k < length ids.now → get_or ids.now k 0 < 64 * length set.old }
    ensures { holds set.new ≡ union (holds set.old) (has ids.now) }
{
    for id in ids {
        insert(set, *id as usize);
    }
}
