// Where a rule meets the hypothesis: its variables, renamed, as terms, and its conclusion over them unified with the hypothesis.
ghost use Rattle.std.specs.Prelude.{◌≡◌, ◌≤◌, length, replicate};
ghost use Rattle.rules.specs.Limits.{VARIABLES, RULEVARS};
ghost use Rattle.rules.specs.Theory.{rule};
ghost use Rattle.terms.specs.Lent.{GoodStore, SameTables, made_of};
ghost use Rattle.unification.specs.Unify.{SameScratch, ScratchKept};
ghost use Rattle.terms.specs.Table.{Below};
ghost use Rattle.inversion.specs.InvertRules.{meets};
ghost use Rattle.inversion.specs.Inverting.{EmptyScratch, hypothesis_in, KeptAs, MeetingIn, MetAs};

use crate::inverting::{Inverting, Renaming};
use questions::{Question, Row};
use rules::{RULEVARS, VARIABLES};
use terms::patterns::Bound;
use terms::store::Store;
use unification::unify::{Scratch, unify};

// A rule's variables bound, one after the other, to the variables of the list as terms.
fn keep_vars(store: &mut Store<'_>, list: &[u32]) -> Result<Bound, Row>
    requires { GoodStore store.old × Below VARIABLES list.now × (length list.now ≤ RULEVARS) }
    ensures same_tables { SameTables store.old store.new }
    ensures kept_as { KeptAs store.old store.new list.now result }
{
    let mut bound = [None; RULEVARS];
    for (k, v) in list.iter().enumerate() {
        let term = store.keep_var(*v as usize)?;
        // by its place: behind a zip with `iter_mut` nothing is known of what was written
        bound[k] = Some(term as u32);
    }
    Ok(bound)
}

impl Inverting<'_> {
    // What the rule's variables are bound to, where the rule meets the hypothesis; none where they have no unifier. The unifier comes into `theta`,
    // which is zero before, and stays so where there is none. It is lent: answered beside what is bound, 2 KB, the checks of `mid` and `invert` take 6.5 and
    // 26 % more instructions. Whoever calls makes its cells for one rule: made once for all, they would have to be zero again behind each rule that meets the
    // hypothesis. `scratch` is zero before and after.
    pub fn meet(
        &self,
        store: &mut Store<'_>,
        own: &Renaming<'_>,
        theta: &mut [u32; VARIABLES],
        scratch: &mut Scratch<'_>,
    ) -> Result<Option<Bound>, Question>
        requires meeting { MeetingIn self.now store.old own.now }
        requires empty { (theta.old ≡ replicate VARIABLES 0) × EmptyScratch scratch.old }
        ensures same_tables { SameTables store.old store.new }
        ensures met_as { (g : MeetingIn self.now store.old own.now) →
            MetAs store.old store.new (meets own.now.vars.now own.now.count (hypothesis_in self.now store.old) (rule g.T own.now.rule) (made_of store.old))
            own.now.vars.now theta.new result }
        ensures same_scratch { SameScratch scratch.old scratch.new }
        ensures scratch_kept { ScratchKept scratch.old scratch.new }
    {
        let bound = keep_vars(store, own.vars)?;
        let symbols = self.source.reader.symbols;
        let at = self.rules.conclusion(symbols, own.rule);
        let patterns = self.rules.patterns(symbols);
        let built = patterns.build(store, &bound, at)?;
        if !unify(
            store,
            own.count,
            self.hypothesis,
            built.term,
            theta,
            scratch,
        )? {
            return Ok(None);
        }
        Ok(Some(bound))
    }
}
