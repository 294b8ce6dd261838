// `(induct N X (HYP...) JUDGMENT (CASE...))`, HYPs or none: structural induction on the variable X. One case a constructor of its sort, in order:
// `(INDEX VAR...)`, a fact that concludes the judgment at the constructor over the case's variables.
ghost use Rattle.std.specs.Prelude.{◌≡◌, ◌*◌, ◌≤◌, length, take, replicate};
ghost use Rattle.rules.specs.Limits.{TERMS, FACTS};
ghost use Rattle.rules.specs.Find.{rising};
ghost use Rattle.rules.specs.State.{Fact as StateFact};
ghost use Rattle.rules.specs.Induct.{motive_vars, induct_on, induct, induct_with};
ghost use Rattle.terms.specs.Lent.{SameTables, made_of, terms_made};
ghost use Rattle.state.specs.Records.{fact_rows};
ghost use Rattle.terms.specs.Sets.{holds};
ghost use Rattle.referring.specs.Recall.{judgment_cells};
ghost use Rattle.referring.specs.Sources.{ReadsForm};
ghost use Rattle.referring.specs.Derived.{DerivedAs, alone};
ghost use Rattle.induction.specs.Inducing.{Blank, Roomy, motive_of, MotivedTerms, on_motive, ReadsMotive, ReadsInduct, ReadsSubject, SubjectAs};
ghost use Rattle.reading.specs.Answers.{PassedAs};

use crate::induct_cases::induct_cases;
use crate::motive::Motive;
use cells::clear;
use facts::{Fact, judgment_of};
use questions::Question;
use reading::reader::Reader;
use referring::scope::visit_all;
use referring::source::Source;
use referring::support::{Derived, Support};
use rules::{ARGUMENTS, FACTS, FACTWORDS, TERMWORDS, VARIABLEWORDS};
use sexp::items;
use state::vars::var_sort;
use terms::sets::{has, write_out};
use terms::store::{Store, Terms};
use terms::variables::visit;

// Cells for numbers of terms, as many as are lent for a form (docs/TABLES.md): a step's references and an inversion's premises stand in them too. A case needs
// 16,400 of them: at most ARGUMENTS induction hypotheses, of at most FACTS premises and a judgment each. More than any form needs, and no less, since the
// number stands in contracts of public functions, which may not ask for another.
pub const IDS: usize = 40960;

// The variable of the form whose items the cells hold.
fn read_subject(reader: &Reader<'_>, cells: &[u32]) -> Result<usize, Question>
    requires { ReadsSubject reader.now cells.now }
    ensures { (g : ReadsSubject reader.now cells.now) → SubjectAs g.S.vars g.xs result }
{
    reader
        .variable(items::from(cells, 2))
        .ok_or(Question::Binding)
}

// The judgments of the facts, by rising number, come into the first cells of `out`, as there is no heap for a list; what is answered is how many they are.
// The numbers are written out and replaced where they stand: `terms::sets` writes out the members of a set, and has no iterator over them.
fn judgments_of(facts: &[Fact], hyps: &[u64; FACTWORDS], out: &mut [u32; FACTS]) -> usize
    requires { length (fact_rows facts.now) ≡ 6 * FACTS }
    ensures { (result ≤ FACTS) × (take result out.new ≡ judgment_cells (fact_rows facts.now) (rising FACTS (holds hyps.now))) }
{
    let count = write_out(hyps, out);
    for cell in out[..count].iter_mut() {
        *cell = judgment_of(facts, *cell as usize);
    }
    count
}

impl Motive<'_> {
    // Its variables.
    fn vars(&self, terms: &Terms<'_>) -> [u64; VARIABLEWORDS]
        requires { MotivedTerms terms.now self.now }
        ensures { holds result ≡ motive_vars (motive_of (terms_made terms.now) self.now) }
    {
        let mut set = [0u64; VARIABLEWORDS];
        let mut seen = [0u64; TERMWORDS];
        visit(terms, self.judgment, &mut seen, &mut set);
        visit_all(terms, self.premises, &mut seen, &mut set);
        set
    }
}

// The cases of the motive: whether there are as many as constructors, and whether its variable occurs in it; then each case. `memo` is scratch: zero
// before and after; `ids` is scratch of whatever content.
fn motive_cases(
    source: &Source<'_>,
    store: &mut Store<'_>,
    cells: &[u32],
    motive: &Motive<'_>,
    memo: &mut [u32],
    ids: &mut [u32],
) -> Result<(), Question>
    requires motive_items { ReadsMotive source.now store.old motive.now cells.now }
    requires scratch { (memo.old ≡ replicate TERMS 0) × Roomy (length motive.now.premises.now) ids.old }
    ensures same_tables { SameTables store.old store.new }
    ensures passed_as { (g : ReadsMotive source.now store.old motive.now cells.now) →
        PassedAs store.old store.new (on_motive g.S (motive_of (made_of store.old) motive.now) g.xs (made_of store.old)) result }
    ensures memo_unchanged { memo.new ≡ memo.old }
{
    let known = source.reader.symbol_table();
    if items::count(cells) != known.constructors(motive.sort) {
        return Err(Question::Cases);
    }
    let used = motive.vars(&store.terms());
    if !has(&used, motive.x) {
        return Err(Question::InductionVariable);
    }
    induct_cases(source, store, cells, motive, &used, memo, ids)
}

// The same, with as many cells of `ids` as a case of the motive can need, which are cleared behind the cases: zero before and after.
fn on_motive(
    source: &Source<'_>,
    store: &mut Store<'_>,
    cells: &[u32],
    motive: &Motive<'_>,
    memo: &mut [u32],
    ids: &mut [u32],
) -> Result<(), Question>
    requires motive_items { ReadsMotive source.now store.old motive.now cells.now }
    requires scratch { Blank memo.old ids.old }
    ensures same_tables { SameTables store.old store.new }
    ensures passed_as { (g : ReadsMotive source.now store.old motive.now cells.now) →
        PassedAs store.old store.new (on_motive g.S (motive_of (made_of store.old) motive.now) g.xs (made_of store.old)) result }
    ensures memo_unchanged { (memo.new ≡ memo.old) × (ids.new ≡ ids.old) }
{
    let width = motive.premises.len();
    let room = ARGUMENTS * (width + 1);
    let result = motive_cases(source, store, cells, motive, memo, &mut ids[..room]);
    clear(&mut ids[..room]);
    result
}

// The rest of the form, from its judgment on, behind its variable and its hypotheses, which are a set of facts.
fn induct_on(
    source: &Source<'_>,
    store: &mut Store<'_>,
    cells: &[u32],
    x: usize,
    hyps: [u64; FACTWORDS],
    memo: &mut [u32],
    ids: &mut [u32],
) -> Result<Derived, Question>
    requires induct_form { ReadsInduct source.now store.old x hyps cells.now }
    requires scratch { Blank memo.old ids.old }
    ensures same_tables { SameTables store.old store.new }
    ensures derived_as { (g : ReadsInduct source.now store.old x hyps cells.now) →
        DerivedAs StateFact store.old store.new g.S (induct_on g.S x (rising (length g.S.facts) (holds hyps)) g.y g.z (made_of store.old)) alone result }
    ensures memo_unchanged { (memo.new ≡ memo.old) × (ids.new ≡ ids.old) }
{
    let reader = &source.reader;
    let judgment = reader.judgment(store, cells)?;
    let cases = items::list(cells, 1).ok_or(Question::Cases)?;
    let mut premises = [0u32; FACTS];
    let width = judgments_of(source.records, &hyps, &mut premises);
    let motive = Motive {
        x,
        sort: var_sort(reader.vars, x),
        judgment,
        premises: &premises[..width],
    };
    on_motive(source, store, cases, &motive, memo, ids)?;
    Ok(Derived {
        judgment,
        instances: 0,
        support: Support {
            hyps,
            ..Support::NONE
        },
    })
}

// The form without hypotheses, whose items the cells hold. `memo` and `ids` are scratch: zero before and after. They are no struct, since `ids` is handed
// on cut, to the cells of a motive and of a row: one more would be made at each cut, and all below would promise that its references are those lent.
pub fn induct(
    source: &Source<'_>,
    store: &mut Store<'_>,
    cells: &[u32],
    memo: &mut [u32],
    ids: &mut [u32],
) -> Result<Derived, Question>
    requires reads { ReadsForm source.now store.old cells.now 5 }
    requires scratch { Blank memo.old ids.old }
    ensures same_tables { SameTables store.old store.new }
    ensures derived_as { (g : ReadsForm source.now store.old cells.now 5) →
        DerivedAs StateFact store.old store.new g.S (induct g.S g.xs (made_of store.old)) alone result }
    ensures memo_unchanged { (memo.new ≡ memo.old) × (ids.new ≡ ids.old) }
{
    let x = read_subject(&source.reader, cells)?;
    let hyps = [0; FACTWORDS];
    induct_on(source, store, items::from(cells, 3), x, hyps, memo, ids)
}

// The form with hypotheses.
pub fn induct_with(
    source: &Source<'_>,
    store: &mut Store<'_>,
    cells: &[u32],
    memo: &mut [u32],
    ids: &mut [u32],
) -> Result<Derived, Question>
    requires reads { ReadsForm source.now store.old cells.now 6 }
    requires scratch { Blank memo.old ids.old }
    ensures same_tables { SameTables store.old store.new }
    ensures derived_as { (g : ReadsForm source.now store.old cells.now 6) →
        DerivedAs StateFact store.old store.new g.S (induct_with g.S g.xs (made_of store.old)) alone result }
    ensures memo_unchanged { (memo.new ≡ memo.old) × (ids.new ≡ ids.old) }
{
    let reader = &source.reader;
    let x = read_subject(reader, cells)?;
    let hyps = reader.plain_hyps(source.records, items::from(cells, 3))?;
    induct_on(source, store, items::from(cells, 4), x, hyps, memo, ids)
}
