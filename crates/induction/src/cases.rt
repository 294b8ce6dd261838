// What a case of `induct` makes: the motive at the constructor and at its variables.
ghost use Rattle.std.specs.Prelude.{◌≡◌, suc, ◌+◌, ◌*◌, ◌<◌, ◌≤◌, length, set, replicate};
ghost use Rattle.rules.specs.Limits.{VARIABLES, TERMS};
ghost use Rattle.rules.specs.Tree.{app};
ghost use Rattle.rules.specs.Induct.{hypothesis_at, hypotheses};
ghost use Rattle.terms.specs.Table.{Below};
ghost use Rattle.terms.specs.Lent.{SameTables, KeptAs, made_of};
ghost use Rattle.terms.specs.Subst.{replacement};
ghost use Rattle.induction.specs.Inducing.{motive_of, MotivedIn, CasingIn, MovableIn, MovedAs, judgment_first, premises_first, var_trees, keep_case, at_constructor, HypsMadeAs, PutAt};

use crate::motive::Motive;
use questions::Row;
use referring::substitutes::substitute_all;
use rules::{NODE, VARIABLES};
use terms::store::Store;
use terms::substitute::substitute;

// The variables as terms, in order, then the constructor c over them: an array as long as the longest node, since there is no heap, and the core stands on
// `std` alone.
fn keep_case(store: &mut Store<'_>, c: usize, own: &[u32]) -> Result<usize, Row>
    requires { CasingIn store.old c own.now }
    ensures same_tables { SameTables store.old store.new }
    ensures kept { KeptAs store.old store.new (app c (var_trees own.now)) (keep_case c own.now (made_of store.old)) result }
{
    let mut node = [0u32; NODE];
    node[0] = c as u32;
    for (k, v) in own.iter().enumerate() {
        let t = store.keep_var(*v as usize)?;
        node[k + 1] = t as u32;
    }
    let end = own.len() + 1;
    store.keep(&node[..end])
}

impl Motive<'_> {
    // Term t comes into the map for the variable: 0 for none and a number with 1 added, what `substitute` reads. The map is lent, and has no other variable
    // before: made anew for each term it was set to zero and copied, a fifth of what a long `induct` took. Who lends none calls `at_constructor` and
    // `hypotheses`, which make one for the call.
    fn put(&self, map: &mut [u32; VARIABLES], t: usize)
        requires { PutAt self.now.x map.old × (self.now.x < VARIABLES) × (t < TERMS) }
        ensures { map.new ≡ set (replicate VARIABLES 0) self.now.x (t + 1) }
    {
        map[self.x] = (t + 1) as u32;
    }

    // The judgment under the substitution `map`, then the premises, whose numbers come into `out`; what is answered is the judgment's number. `memo` is
    // scratch: zero before and after.
    fn judgment_first(
        &self,
        store: &mut Store<'_>,
        map: &[u32],
        memo: &mut [u32],
        out: &mut [u32],
    ) -> Result<usize, Row>
        requires { MovableIn store.old self.now map.now memo.old out.old }
        ensures same_tables { SameTables store.old store.new }
        ensures moved_as { let M = made_of store.old in let P = motive_of M self.now in
            MovedAs store.old store.new (judgment_first (replacement M map.now) P.judgment P.premises M) out.new result }
        ensures memo_unchanged { memo.new ≡ memo.old }
    {
        let t = substitute(store, map, memo, self.judgment)?;
        substitute_all(store, map, memo, self.premises, out)?;
        Ok(t)
    }

    // The premises, then the judgment: a hypothesis makes its terms in this order, a case in the other, and the numbers of terms show it.
    fn premises_first(
        &self,
        store: &mut Store<'_>,
        map: &[u32],
        memo: &mut [u32],
        out: &mut [u32],
    ) -> Result<usize, Row>
        requires { MovableIn store.old self.now map.now memo.old out.old }
        ensures same_tables { SameTables store.old store.new }
        ensures moved_as { let M = made_of store.old in let P = motive_of M self.now in
            MovedAs store.old store.new (premises_first (replacement M map.now) P.judgment P.premises M) out.new result }
        ensures memo_unchanged { memo.new ≡ memo.old }
    {
        substitute_all(store, map, memo, self.premises, out)?;
        substitute(store, map, memo, self.judgment)
    }

    // The motive at the constructor c over the variables: the premises' numbers come into `out`; what is answered is the judgment's. `memo` is scratch:
    // zero before and after.
    pub fn at_constructor_with(
        &self,
        store: &mut Store<'_>,
        c: usize,
        own: &[u32],
        map: &mut [u32; VARIABLES],
        memo: &mut [u32],
        out: &mut [u32],
    ) -> Result<usize, Row>
        requires casing { CasingIn store.old c own.now × MotivedIn store.old self.now }
        requires put { PutAt self.now.x map.old }
        requires memo_value { (memo.old ≡ replicate TERMS 0) × (length out.old ≡ length self.now.premises.now) }
        ensures same_tables { SameTables store.old store.new }
        ensures moved_as { let M = made_of store.old in MovedAs store.old store.new (at_constructor (motive_of M self.now) c own.now M) out.new result }
        ensures memo_unchanged { memo.new ≡ memo.old }
        ensures put { PutAt self.now.x map.new }
    {
        let t = keep_case(store, c, own)?;
        self.put(map, t);
        self.judgment_first(store, map, memo, out)
    }

    // The same with a map of its own.
    pub fn at_constructor(
        &self,
        store: &mut Store<'_>,
        c: usize,
        own: &[u32],
        memo: &mut [u32],
        out: &mut [u32],
    ) -> Result<usize, Row>
        requires casing { CasingIn store.old c own.now × MotivedIn store.old self.now }
        requires memo_value { (memo.old ≡ replicate TERMS 0) × (length out.old ≡ length self.now.premises.now) }
        ensures same_tables { SameTables store.old store.new }
        ensures moved_as { let M = made_of store.old in MovedAs store.old store.new (at_constructor (motive_of M self.now) c own.now M) out.new result }
        ensures memo_unchanged { memo.new ≡ memo.old }
    {
        self.at_constructor_with(store, c, own, &mut [0; VARIABLES], memo, out)
    }

    // The motive at the variable v: the premises' numbers come into `out`; what is answered is the judgment's.
    fn hypothesis_at(
        &self,
        store: &mut Store<'_>,
        v: usize,
        map: &mut [u32; VARIABLES],
        memo: &mut [u32],
        out: &mut [u32],
    ) -> Result<usize, Row>
        requires motived { MotivedIn store.old self.now × (v < VARIABLES) }
        requires put { PutAt self.now.x map.old }
        requires memo_value { (memo.old ≡ replicate TERMS 0) × (length out.old ≡ length self.now.premises.now) }
        ensures same_tables { SameTables store.old store.new }
        ensures moved_as { let M = made_of store.old in MovedAs store.old store.new (hypothesis_at (motive_of M self.now) v M) out.new result }
        ensures memo_unchanged { memo.new ≡ memo.old }
        ensures put { PutAt self.now.x map.new }
    {
        let t = store.keep_var(v)?;
        self.put(map, t);
        self.premises_first(store, map, memo, out)
    }

    // One for each variable of the motive's own sort, one behind the other in `ids`: the premises, then the judgment. What is answered is where they end.
    pub fn hypotheses_with(
        &self,
        store: &mut Store<'_>,
        own: &[u32],
        sorts: &[u32],
        map: &mut [u32; VARIABLES],
        memo: &mut [u32],
        ids: &mut [u32],
    ) -> Result<usize, Row>
        requires motived { MotivedIn store.old self.now × (memo.old ≡ replicate TERMS 0) }
        requires put { PutAt self.now.x map.old }
        requires below { Below VARIABLES own.now × (length sorts.now ≡ length own.now) × (length own.now * suc (length self.now.premises.now) ≤ length ids.old) }
        ensures same_tables { SameTables store.old store.new }
        ensures hyps_made_as { let M = made_of store.old in
            HypsMadeAs store.old store.new (hypotheses (motive_of M self.now) own.now sorts.now M) (length self.now.premises.now) (length own.now) ids.new result }
        ensures memo_unchanged { memo.new ≡ memo.old }
        ensures put { PutAt self.now.x map.new }
    {
        // `at` is answered: with `chunks_exact_mut` beside a filtered walk the variables would be counted by a second walk, and what is written through it
        // is not known behind the loop
        let mut at = 0;
        for (v, sort) in own.iter().zip(sorts) {
            if *sort as usize != self.sort {
                continue;
            }
            let end = at + self.premises.len();
            let t = self.hypothesis_at(store, *v as usize, map, memo, &mut ids[at..end])?;
            ids[end] = t as u32;
            at = end + 1;
        }
        Ok(at)
    }

    // The same with a map of its own.
    pub fn hypotheses(
        &self,
        store: &mut Store<'_>,
        own: &[u32],
        sorts: &[u32],
        memo: &mut [u32],
        ids: &mut [u32],
    ) -> Result<usize, Row>
        requires motived { MotivedIn store.old self.now × (memo.old ≡ replicate TERMS 0) }
        requires below { Below VARIABLES own.now × (length sorts.now ≡ length own.now) × (length own.now * suc (length self.now.premises.now) ≤ length ids.old) }
        ensures same_tables { SameTables store.old store.new }
        ensures hyps_made_as { let M = made_of store.old in
            HypsMadeAs store.old store.new (hypotheses (motive_of M self.now) own.now sorts.now M) (length self.now.premises.now) (length own.now) ids.new result }
        ensures memo_unchanged { memo.new ≡ memo.old }
    {
        self.hypotheses_with(store, own, sorts, &mut [0; VARIABLES], memo, ids)
    }
}

#[cfg(test)]
mod tests {
    use super::*;
    use rules::{SYMBOLS, TERMS, WORDS};
    use std::test::Fail;
    use terms::store::Mark;

    // The motive is variable 0 itself, so that its instances are what is put for it: constructor 3 over variable 1, then variable 1.
    #[test]
    fn makes_the_terms_of_a_case(rt: HostRuntime) -> Result<(), Fail> {
        let mut index = [0; 4 * TERMS];
        let mut words = [0; WORDS];
        let mut store = Store {
            index: &mut index,
            words: &mut words,
            mark: Mark::NONE,
        };
        let mut memo = [0; TERMS];
        let mut ids = [0];
        let motive = Motive {
            x: 0,
            sort: 1,
            judgment: store.keep_var(0)?,
            premises: &[],
        };
        let judgment = motive.at_constructor(&mut store, 3, &[1], &mut memo, &mut [])?;
        assert_eq!(rt; judgment, 2);
        let end = motive.hypotheses(&mut store, &[1], &[1], &mut memo, &mut ids)?;
        assert_eq!(rt; end, 1);
        assert_eq!(rt; ids, [1]);
        assert_eq!(rt; store.mark.terms, 3);
        for (at, word) in [SYMBOLS, SYMBOLS + 1, 3, 1].iter().enumerate() {
            assert_eq!(rt;
                words.get(at).map(|word| *word as usize),
                Some(*word),
                "word {at}"
            );
        }
        Ok(())
    }
}
