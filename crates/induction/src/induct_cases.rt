// The cases of `induct`, each with a constructor of the sort, in order: the variables that a case names, its terms, and the questions of its fact.
ghost use Rattle.std.specs.Prelude.{◌≡◌, [], ◌<◌, length, replicate};
ghost use Rattle.rules.specs.Limits.{TERMS};
ghost use Rattle.rules.specs.Theory.{constructors};
ghost use Rattle.rules.specs.Induct.{Motive as Proved, motive_vars, case_vars, induct_cases};
ghost use Rattle.terms.specs.Lent.{SameTables, made_of};
ghost use Rattle.terms.specs.Sets.{holds};
ghost use Rattle.induction.specs.Inducing.{Roomy, motive_of, case_behind, CaseIn, Cased, NamesIn, NamedAs, ReadsCase, CaseAs, ReadsCases, PutAt};
ghost use Rattle.reading.specs.Answers.{PassedAs};

use crate::motive::{Motive, Rows};
use crate::resting::Allowed;
use questions::Question;
use reading::names::index;
use reading::reader::Reader;
use referring::references::insert_all;
use referring::source::{Facts, Source};
use rules::{ARGUMENTS, TERMWORDS, VARIABLES, VARIABLEWORDS};
use sexp::items;
use state::vars::var_sort;
use terms::sets::{has, insert};
use terms::store::Store;

// A case as it is spelled: its fact, its constructor, and the variables over which that stands, of as many cells as there are sorts: no heap for a list, and
// the core stands on `std` alone.
#[derive(Clone, Copy)]
struct Case<'a> {
    fact: usize,
    constructor: usize,
    own: [u32; ARGUMENTS],
    sorts: &'a [u32],
}

// The case's variables that the items name: of the sorts, new to the motive, whose variables are in the set, and to each other.
fn case_vars(
    reader: &Reader<'_>,
    sorts: &[u32],
    used: &[u64; VARIABLEWORDS],
    cells: &[u32],
) -> Result<[u32; ARGUMENTS], Question>
    requires { NamesIn reader.now sorts.now used.now cells.now }
    ensures { (g : NamesIn reader.now sorts.now used.now cells.now) →
        (M : Proved) → holds used.now ≡ motive_vars M → NamedAs (case_vars g.S M g.xs sorts.now []) (length sorts.now) result }
{
    let mut own = [0; ARGUMENTS];
    let mut seen = [0u64; VARIABLEWORDS];
    for (k, item) in items::all(cells).enumerate() {
        let v = reader.variable(item).ok_or(Question::CaseVariables)?;
        if var_sort(reader.vars, v) != sorts[k] as usize || has(used, v) || has(&seen, v) {
            return Err(Question::CaseVariables);
        }
        insert(&mut seen, v);
        own[k] = v as u32;
    }
    Ok(own)
}

// The case of constructor c that the first item spells; the set holds the motive's variables.
fn read_case<'a>(
    reader: &Reader<'a>,
    used: &[u64; VARIABLEWORDS],
    c: usize,
    cells: &[u32],
) -> Result<Case<'a>, Question>
    requires { ReadsCase reader.now used.now cells.now × (c < reader.now.n.symbols) }
    ensures { (g : ReadsCase reader.now used.now cells.now) → (M : Proved) → holds used.now ≡ motive_vars M → CaseAs g.S M g.y c result }
{
    let inner = items::list(cells, 0).ok_or(Question::Cases)?;
    if inner.is_empty() {
        return Err(Question::Cases);
    }
    let fact = index(reader.text, inner).ok_or(Question::Cases)?;
    let known = reader.symbol_table();
    let many = known.arity(c);
    if items::count(inner) != many + 1 {
        return Err(Question::Cases);
    }
    let sorts = known.inputs(c, many);
    let own = case_vars(reader, sorts, used, items::from(inner, 1))?;
    Ok(Case {
        fact,
        constructor: c,
        own,
        sorts,
    })
}

// A case behind its variables: the motive at the constructor, the induction hypotheses, the questions of its fact. `memo` is scratch: zero before and
// after; `ids` is scratch of whatever content: who lends it clears it.
fn case_terms(
    facts: &Facts<'_>,
    store: &mut Store<'_>,
    motive: &Motive<'_>,
    used: &[u64; VARIABLEWORDS],
    case: &Case<'_>,
    map: &mut [u32; VARIABLES],
    memo: &mut [u32],
    ids: &mut [u32],
) -> Result<(), Question>
    requires in_case { CaseIn facts.now store.old motive.now used.now }
    requires cased { Cased store.old case.now }
    requires scratch { (memo.old ≡ replicate TERMS 0) × Roomy (length motive.now.premises.now) ids.old }
    requires put { PutAt motive.now.x map.old }
    ensures same_tables { SameTables store.old store.new }
    ensures passed_as { (g : CaseIn facts.now store.old motive.now used.now) →
        PassedAs store.old store.new (case_behind g.S (motive_of (made_of store.old) motive.now) case.now (made_of store.old)) result }
    ensures memo_unchanged { memo.new ≡ memo.old }
    ensures put { PutAt motive.now.x map.new }
{
    let mut plain = [0u64; TERMWORDS];
    let own = &case.own[..case.sorts.len()];
    let width = motive.premises.len();
    let judgment = motive.at_constructor_with(
        store,
        case.constructor,
        own,
        map,
        memo,
        &mut ids[..width],
    )?;
    insert_all(&ids[..width], &mut plain);
    let end = motive.hypotheses_with(store, own, case.sorts, map, memo, ids)?;
    let rows = Rows {
        cells: &ids[..end],
        width,
    };
    // without premises an induction hypothesis is a judgment, which a case may rest on as on a plain hypothesis
    if width == 0 {
        insert_all(rows.cells, &mut plain);
    }
    let allowed = Allowed {
        plain: &plain,
        used,
        x: motive.x,
        rows,
    };
    allowed.case_fact(facts, case.fact, judgment)
}

// The cases that the items spell, each with a constructor of the sort, by position.
pub fn induct_cases(
    source: &Source<'_>,
    store: &mut Store<'_>,
    cells: &[u32],
    motive: &Motive<'_>,
    used: &[u64; VARIABLEWORDS],
    memo: &mut [u32],
    ids: &mut [u32],
) -> Result<(), Question>
    requires case_items { ReadsCases source.now store.old motive.now used.now cells.now }
    requires scratch { (memo.old ≡ replicate TERMS 0) × Roomy (length motive.now.premises.now) ids.old }
    ensures same_tables { SameTables store.old store.new }
    ensures passed_as { (g : ReadsCases source.now store.old motive.now used.now cells.now) →
        PassedAs store.old store.new (induct_cases g.S (motive_of (made_of store.old) motive.now) g.xs (constructors g.S.theory motive.now.sort) (made_of store.old)) result }
    ensures memo_unchanged { memo.new ≡ memo.old }
{
    let reader = &source.reader;
    let known = reader.symbol_table();
    // where the next constructor of the sort is looked for, which is no count; in a zip with the constructors of the sort, each would have to be tied to the
    // question that `next_constructor` answers, and what is left of them told by an invariant
    let mut from = 0;
    let mut map = [0; VARIABLES];
    for item in items::all(cells) {
        let Some(c) = known.next_constructor(motive.sort, from) else {
            return Ok(());
        };
        let case = read_case(reader, used, c, item)?;
        case_terms(
            &source.facts(),
            store,
            motive,
            used,
            &case,
            &mut map,
            memo,
            ids,
        )?;
        from = c + 1;
    }
    Ok(())
}
