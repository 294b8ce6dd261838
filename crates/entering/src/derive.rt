// Forms of derived facts: what `step`, `apply`, an induction or an inversion finds comes behind the facts.
ghost use Rattle.std.specs.Prelude.{◌≡◌};
ghost use Rattle.terms.specs.Lent.{SameTables};
ghost use Rattle.state.specs.Boards.{SameBoard, OnlyFacts, OnlyFactsAndVars};
ghost use Rattle.entering.specs.Entered.{way_counts, Spare, SpareFor, FindsBy, FoundBy, AddsBy, AddedBy};
ghost use Rattle.entering.specs.Inverted.{AddsInversionIn, InvertedBy};

use counts::Counts;
use derivation::apply::apply;
use derivation::step::step;
use induction::induct::{induct, induct_with};
use inversion::invert::{invert, put_made};
use inversion::inverting::Variables;
use kernel::rule_readers::Rules;
use questions::Question;
use referring::source::{Source, source_of};
use referring::support::Derived;
use rules::PATTERNS;
use state::board::{Board, Given};
use terms::store::Store;

// How a derived fact is found. The ways are named, and no closure is handed on: each would have to carry what it asks and answers, which `FindsBy` and
// `FoundBy` say for each `Way`.
#[derive(Clone, Copy, Debug, PartialEq, Eq)]
pub enum Way {
    Step,
    Apply,
    Induct,
    InductWith,
}

impl Way {
    // What such a form counts; the instances among its references are counted where it is a step.
    fn counts(self, instances: usize) -> Counts
        ensures { result ≡ way_counts self instances }
    {
        match self {
            Way::Step => Counts {
                instances,
                ..Counts::NONE
            },
            Way::Apply => Counts::NONE,
            Way::Induct | Way::InductWith => Counts {
                inductions: 1,
                ..Counts::NONE
            },
        }
    }
}

// What the form derives, by its items. `memo` and `ids` are scratch: zero before and after, as far as the way needs them. A struct of both would be taken
// apart here: `step` is lent a part of `ids`, and `apply` is lent `memo` alone.
fn find(
    source: &Source<'_>,
    rules: &Rules<'_>,
    store: &mut Store<'_>,
    cells: &[u32],
    way: Way,
    memo: &mut [u32],
    ids: &mut [u32],
) -> Result<Derived, Question>
    requires finds { FindsBy way source.now rules.now store.old cells.now }
    requires spare { SpareFor way ids.old memo.old }
    ensures same_tables { SameTables store.old store.new }
    ensures found { FoundBy way source.now rules.now store.old store.new cells.now result }
    ensures memo_unchanged { (memo.new ≡ memo.old) × (ids.new ≡ ids.old) }
{
    match way {
        Way::Step => step(source, rules, store, cells, memo, &mut ids[..PATTERNS]),
        Way::Apply => apply(source, store, cells, memo),
        Way::Induct => induct(source, store, cells, memo, ids),
        Way::InductWith => induct_with(source, store, cells, memo, ids),
    }
}

// `(step N RULE (REF...) ITEM...)`, `(apply N M (BINDING...) (REF...))`, `(induct N X JUDGMENT (CASE...))` or `(induct N X (HYP...) JUDGMENT (CASE...))`,
// by the items of the form. `memo` and `ids` are scratch: zero before and after, as far as the way needs them.
pub fn add_derived(
    given: &Given<'_>,
    board: &mut Board<'_>,
    store: &mut Store<'_>,
    cells: &[u32],
    way: Way,
    memo: &mut [u32],
    ids: &mut [u32],
) -> Result<Counts, Question>
    requires adds { AddsBy way given.now board.old store.old cells.now }
    requires spare { SpareFor way ids.old memo.old }
    ensures same_board { SameBoard board.old board.new × SameTables store.old store.new }
    ensures only { OnlyFacts board.old board.new }
    ensures added { AddedBy way given.now board.old board.new store.old store.new cells.now result }
    ensures memo_unchanged { (memo.new ≡ memo.old) × (ids.new ≡ ids.old) }
{
    let given = *given;
    let source = source_of(&given, board);
    let derived = find(&source, &given.rules, store, cells, way, memo, ids)?;
    let support = &derived.support;
    board.put_derived(derived.judgment, &support.hyps, &support.footing)?;
    Ok(way.counts(derived.instances))
}

// `(invert N K (HYP...) JUDGMENT (CASE...))`, by the items of the form. The variables that it makes come behind the others. `memo` and `ids` are scratch:
// zero before and after.
pub fn add_invert(
    given: &Given<'_>,
    board: &mut Board<'_>,
    store: &mut Store<'_>,
    cells: &[u32],
    memo: &mut [u32],
    ids: &mut [u32],
) -> Result<Counts, Question>
    requires adds_inversion { AddsInversionIn given.now board.old store.old cells.now }
    requires spare { Spare ids.old memo.old }
    ensures same_board { SameBoard board.old board.new × SameTables store.old store.new }
    ensures only { OnlyFactsAndVars board.old board.new }
    ensures inverted { InvertedBy given.now board.old board.new store.old store.new cells.now result }
    ensures memo_unchanged { (memo.new ≡ memo.old) × (ids.new ≡ ids.old) }
{
    let given = *given;
    let source = source_of(&given, board);
    let mut made = Variables::NONE;
    let found = invert(&source, &given.rules, store, cells, memo, ids, &mut made)?;
    let support = &found.support;
    board.put_derived(found.judgment, &support.hyps, &support.footing)?;
    let count = board.n.vars;
    put_made(board.vars, count, &made);
    board.n.vars = made.count;
    Ok(Counts {
        inversions: 1,
        ..Counts::NONE
    })
}
