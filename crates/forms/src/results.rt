// `(result NAME REF)`: questions 50 to 52. A goal's result has come.
ghost use Rattle.state.specs.Records.{fact_rows};
ghost use Rattle.std.specs.Prelude.{◌≡◌, ◌&&◌, ◌<◌, replicate};
ghost use Rattle.rules.specs.Limits.{TERMS};
ghost use Rattle.rules.specs.Find.{entry, all, has};
ghost use Rattle.rules.specs.Tree.{Trees};
ghost use Rattle.rules.specs.Forms.{listed, result as result_of};
ghost use Rattle.rules.specs.StateTables.{numbers};
ghost use Rattle.rules.specs.Laws.Keeping.{Each};
ghost use Rattle.rules.specs.Laws.Sound.{sound};
ghost use Rattle.terms.specs.Lent.{SameTables};
ghost use Rattle.terms.specs.Sets.{holds};
ghost use Rattle.state.specs.Boards.{SameBoard, OnlyRows};
ghost use Rattle.state.specs.Rows.{cell, FactAt, plain_row};
ghost use Rattle.referring.specs.Recall.{fact_of};
ghost use Rattle.forms.specs.Boards.{CoversIn, TakesResultIn};
ghost use Rattle.forms.specs.Results.{goal_of, ListsHyps, MetAs, ResultedAs};

use facts::Fact;
use questions::Question;
use referring::references::insert_all;
use referring::source::{Facts, source_of};
use rules::TERMWORDS;
use sexp::items;
use state::board::{Board, Given};
use state::goals::{goal_hyps, goal_judgment, is_taken, take_goal};
use state::recorded::{is_plain, judgment};
use terms::sets::has;
use terms::store::Store;

// Whether fact h is a plain hypothesis, with a judgment of the set.
fn is_listed(facts: &[Fact], h: usize, terms: &[u64; TERMWORDS]) -> bool
    requires { FactAt (fact_rows facts.now) h × (cell 6 (fact_rows facts.now) h 0 < TERMS) }
    ensures { result ≡ plain_row (fact_rows facts.now) h && holds terms.now (cell 6 (fact_rows facts.now) h 0) }
{
    is_plain(facts, h) && has(terms, judgment(facts, h))
}

// Whether each of the hypotheses is plain, with a judgment of the set.
fn all_listed(facts: &[Fact], hyps: &[u32], terms: &[u64; TERMWORDS]) -> bool
    requires { ListsHyps (fact_rows facts.now) hyps.now }
    ensures { ((g : ListsHyps (fact_rows facts.now) hyps.now) (hs : Trees) → Each (sound.Has g.trees) hs →
        holds terms.now ≡ has (numbers g.trees hs) → result ≡ all (λ h. listed hs (entry g.S.facts h)) hyps.now) }
{
    hyps.iter().all(|h| is_listed(facts, *h as usize, terms))
}

// Question 51: whether goal k lists each hypothesis of fact i, on which a reference rests that names it bare.
fn covers(facts: &Facts<'_>, goals: &[u32], k: usize, i: usize) -> bool
    requires { CoversIn goals.now facts.now k i }
    ensures { (g : CoversIn goals.now facts.now k i) →
        result ≡ all (λ h. listed (goal_of g.S k).hyps (entry g.S.facts h)) (fact_of g.S i).hyps }
{
    let mut terms = [0u64; TERMWORDS];
    let hyps = goal_hyps(goals, k);
    insert_all(hyps.of(facts.lists), &mut terms);
    all_listed(facts.records, facts.hyps(i), &terms)
}

// The goal whose result has come, by the items of the form. `memo` is scratch: zero before and after.
fn met(
    given: &Given<'_>,
    board: &Board<'_>,
    store: &mut Store<'_>,
    cells: &[u32],
    memo: &mut [u32],
) -> Result<usize, Question>
    requires takes_result { TakesResultIn given.now board.now store.old cells.now }
    requires memo_value { memo.old ≡ replicate TERMS 0 }
    ensures same_tables { SameTables store.old store.new }
    ensures met_as { (g : TakesResultIn given.now board.now store.old cells.now) →
        MetAs board.now store.old store.new g.S (result_of g.xs g.S) result }
    ensures memo_unchanged { memo.new ≡ memo.old }
{
    let name = items::head(given.text, items::from(cells, 1)).ok_or(Question::ResultName)?;
    let k = board
        .goal_table()
        .named(given.goals, name)
        .filter(|k| !is_taken(board.rows, *k))
        .ok_or(Question::ResultName)?;
    let source = source_of(given, board);
    let found = source.reference(store, items::from(cells, 2), memo)?;
    let facts = source.facts();
    if found.bare && !covers(&facts, board.rows, k, found.fact) {
        return Err(Question::ResultHypotheses);
    }
    if found.judgment != goal_judgment(board.rows, k) {
        return Err(Question::ResultJudgment);
    }
    Ok(k)
}

// `(result NAME REF)`, by the items of the form. `memo` is scratch: zero before and after.
pub fn result(
    given: &Given<'_>,
    board: &mut Board<'_>,
    store: &mut Store<'_>,
    cells: &[u32],
    memo: &mut [u32],
) -> Result<(), Question>
    requires takes_result { TakesResultIn given.now board.old store.old cells.now }
    requires memo_value { memo.old ≡ replicate TERMS 0 }
    ensures same_board { SameBoard board.old board.new × SameTables store.old store.new }
    ensures only { OnlyRows board.old board.new × (board.new.n ≡ board.old.n) }
    ensures resulted_as { (g : TakesResultIn given.now board.old store.old cells.now) →
        ResultedAs board.old board.new store.old store.new g.S (result_of g.xs g.S) result }
    ensures memo_unchanged { memo.new ≡ memo.old }
{
    let k = met(given, board, store, cells, memo)?;
    take_goal(board.rows, k);
    Ok(())
}
