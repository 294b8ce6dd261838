// Lists of variables, each given once, and lists of judgments, in the order given.
ghost use Rattle.std.specs.Prelude.{◌≡◌, ◌<◌, ◌^◌, length, set, replicate};
ghost use Rattle.rules.specs.Limits.{VARIABLES};
ghost use Rattle.rules.specs.Sexp.{list};
ghost use Rattle.rules.specs.Read.{judgments};
ghost use Rattle.terms.specs.Lent.{SameTables, made_of};
ghost use Rattle.reading.specs.Lent.{VarsItemIn, VarsItemsIn, ReadsItemIn, ReadsItemsIn};
ghost use Rattle.reading.specs.Answers.{VarsAs, JudgmentsAs};

use crate::reader::Reader;
use cells::{clear, or_cleared};
use questions::Question;
use rules::VARIABLEWORDS;
use sexp::items;
use terms::sets::{count, has, insert};
use terms::store::Store;

// Cell k, as far as there is one. Not by `get_mut`, behind which nothing is known of what the slice holds.
pub(crate) fn put_within(out: &mut [u32], k: usize, t: usize)
    requires { t < 2 ^ 32 }
    ensures { out.new ≡ set out.old k t }
{
    if k < out.len() {
        out[k] = t as u32;
    }
}

impl Reader<'_> {
    // The variables that the items name, each once, come into the cells, which are zero before; what is answered is how many they are. The cells are
    // lent: no heap, and the core stands on `std` alone, which has no vector without one.
    fn vars_each(&self, cells: &[u32], out: &mut [u32]) -> Option<usize>
        requires { VarsItemsIn self.now cells.now × (out.old ≡ replicate VARIABLES 0) }
        ensures { (g : VarsItemsIn self.now cells.now) → VarsAs g.S.vars (list g.xs) out.new out.new result }
    {
        let mut seen = [0u64; VARIABLEWORDS];
        for (k, item) in items::all(cells).enumerate() {
            let v = self.variable(item)?;
            if has(&seen, v) {
                return None;
            }
            insert(&mut seen, v);
            out[k] = v as u32;
        }
        // each is new to those before it, so that there are as many as in the set
        Some(count(&seen))
    }

    // The variables that the first item lists come into the cells, which are zero before, and afterwards where they are none. What is answered is
    // how many they are. The cells are lent: answered beside the count, 2 KB, the checks of `mid` and `invert` take 5.9 and 8 % more instructions.
    pub fn vars_list(&self, cells: &[u32], out: &mut [u32]) -> Option<usize>
        requires { VarsItemIn self.now cells.now × (out.old ≡ replicate VARIABLES 0) }
        ensures { (g : VarsItemIn self.now cells.now) → VarsAs g.S.vars g.x out.old out.new result }
    {
        let inner = items::list(cells, 0)?;
        let count = self.vars_each(inner, out);
        // an option, which would have to become a `Result` and an option again for `or_cleared`
        if count.is_none() {
            clear(out);
        }
        count
    }

    // The judgments that the items spell: their numbers come into the cells, which are zero before, as far as there are cells. What is answered is
    // how many they are.
    fn judgment_each(
        &self,
        store: &mut Store<'_>,
        cells: &[u32],
        out: &mut [u32],
    ) -> Result<usize, Question>
        requires reads_items { ReadsItemsIn self.now store.old cells.now }
        requires out_value { out.old ≡ replicate (length out.old) 0 }
        ensures same_tables { SameTables store.old store.new }
        ensures judgments_as { (g : ReadsItemsIn self.now store.old cells.now) →
            JudgmentsAs store.old store.new (judgments g.S (list g.xs) (made_of store.old)) out.new out.new result }
    {
        for (k, item) in items::all(cells).enumerate() {
            let t = self.judgment(store, item)?;
            put_within(out, k, t);
        }
        Ok(items::count(cells))
    }

    // The judgments that the first item lists: their numbers come into the cells as far as there are any, and their count is answered. Where they
    // are refused, the cells are zero again.
    pub fn judgments(
        &self,
        store: &mut Store<'_>,
        cells: &[u32],
        out: &mut [u32],
    ) -> Result<usize, Question>
        requires reads_item { ReadsItemIn self.now store.old cells.now }
        requires out_value { out.old ≡ replicate (length out.old) 0 }
        ensures same_tables { SameTables store.old store.new }
        ensures judgments_as { (g : ReadsItemIn self.now store.old cells.now) →
            JudgmentsAs store.old store.new (judgments g.S g.x (made_of store.old)) out.old out.new result }
    {
        let inner = items::list(cells, 0).ok_or(Question::Spelling)?;
        let count = self.judgment_each(store, inner, out);
        or_cleared(count, out)
    }
}
