// One form of the goals or of the proof: its tag says which, and what it adds comes into the tables. A form that is refused leaves every table as it
// stood before.
ghost use Rattle.std.specs.Prelude.{◌≡◌};
ghost use Rattle.rules.specs.Tags.{goal_form, proof_tag};
ghost use Rattle.rules.specs.Forms.{next, goal, take_goal, perform, take_form};
ghost use Rattle.terms.specs.Lent.{SameTables};
ghost use Rattle.state.specs.Boards.{SameBoard};
ghost use Rattle.forms.specs.Next.{OwnIndex};
ghost use Rattle.entering.specs.Entered.{Spare};
ghost use Rattle.taking.specs.Tagged.{tagged, chosen};
ghost use Rattle.taking.specs.Taking.{TakesFormIn, TakesGoalIn, TakenIn, GoalTakenIn};
ghost use Rattle.taking.specs.Tried.{ItemsIn, GoalItemsIn, TriedIn, GoalTriedIn, one_hypothesis, NumberedAs};

use crate::tags::{tag_of, tag_of_goal};
use counts::Counts;
use entering::derive::{Way, add_derived, add_invert};
use forms::declare::{add_def, add_var_of};
use forms::goals::{add_goal, add_goal_with};
use forms::hypotheses::{add_hyp, add_rule_hyp};
use forms::next::next_index;
use forms::results::result;
use questions::{Question, Text};
use sexp::items;
use sexp::tags::{GoalForm, Tag};
use state::board::{Board, Given};
use state::sizes::Sizes;
use terms::store::Store;

// What a hypothesis counts.
fn one_hypothesis() -> Counts
    ensures { result ≡ one_hypothesis }
{
    Counts {
        hypotheses: 1,
        ..Counts::NONE
    }
}

// The form of the goals that has these items. Where it is refused, the terms that it made are still there.
fn goal_items(
    given: &Given<'_>,
    board: &mut Board<'_>,
    store: &mut Store<'_>,
    cells: &[u32],
) -> Result<(), Question>
    requires { GoalItemsIn given.now board.old store.old cells.now }
    ensures same_board { SameBoard board.old board.new × SameTables store.old store.new }
    ensures tried_as { (g : GoalItemsIn given.now board.old store.old cells.now) →
        GoalTriedIn given.now board.old board.new store.old store.new g.items.S (chosen 20 goal (tagged goal_form g.items.xs) g.items.xs g.items.S) result }
{
    match tag_of_goal(given.text, cells).ok_or(Question::GoalForm)? {
        GoalForm::Variable => add_var_of(given, board, Text::Goals.number(), cells),
        GoalForm::Goal => add_goal(given, board, store, cells),
        GoalForm::GoalWith => add_goal_with(given, board, store, cells),
    }
}

// A form of the goals, by its cells; the text is that of the goals. One function for this and `take_form` would be handed the reading of the items and
// what that promises. The three lines in which both end are no method of the store either: it would say of any answer what it leaves, which is no plainer.
pub fn take_goal(
    given: &Given<'_>,
    board: &mut Board<'_>,
    store: &mut Store<'_>,
    cells: &[u32],
) -> Result<(), Question>
    requires { TakesGoalIn given.now board.old store.old cells.now }
    ensures same_board { SameBoard board.old board.new × SameTables store.old store.new }
    ensures taken_as { (g : TakesGoalIn given.now board.old store.old cells.now) →
        GoalTakenIn given.now board.old board.new store.old store.new g.form.S (take_goal g.form.x g.form.S) result }
{
    let inner = items::list(cells, 0).ok_or(Question::GoalForm)?;
    let mark = store.mark;
    let taken = goal_items(given, board, store, inner);
    if taken.is_err() {
        store.forget(mark);
    }
    taken
}

// The index that a form gives to the fact that it adds must be the next; a form that adds none gives none.
fn own_index(text: &[u8], cells: &[u32], tag: Tag, n: Sizes) -> Result<(), Question>
    requires { OwnIndex text.now cells.now n }
    ensures { (g : OwnIndex text.now cells.now n) → NumberedAs tag g.S (next g.xs g.S) result }
{
    match tag {
        Tag::Var | Tag::Def | Tag::Outcome => Ok(()),
        _ => next_index(text, cells, n),
    }
}

// The form of the proof that has these items: what it counts. Where it is refused, the terms that it made are still there. `ids` and `memo` are scratch:
// zero before and after. A struct of both would be taken apart for `result`, which is lent `memo` alone, and where `step` and `induct` cut `ids`.
fn form_items(
    given: &Given<'_>,
    board: &mut Board<'_>,
    store: &mut Store<'_>,
    cells: &[u32],
    ids: &mut [u32],
    memo: &mut [u32],
) -> Result<Counts, Question>
    requires { ItemsIn given.now board.old store.old cells.now × Spare ids.old memo.old }
    ensures same_board { SameBoard board.old board.new × SameTables store.old store.new }
    ensures tried_as { (g : ItemsIn given.now board.old store.old cells.now) →
        TriedIn given.now board.old board.new store.old store.new g.S (chosen 30 perform (tagged proof_tag g.xs) g.xs g.S) result }
    ensures spare_unchanged { (ids.new ≡ ids.old) × (memo.new ≡ memo.old) }
{
    let tag = tag_of(given.text, cells).ok_or(Question::ProofForm)?;
    own_index(given.text, cells, tag, board.n)?;
    match tag {
        Tag::Var => add_var_of(given, board, Text::Proof.number(), cells).and(Ok(Counts::NONE)),
        Tag::Def => add_def(given, board, store, cells).and(Ok(Counts::NONE)),
        Tag::Step => add_derived(given, board, store, cells, Way::Step, memo, ids),
        Tag::Hyp => add_hyp(given, board, store, cells).and(Ok(one_hypothesis())),
        Tag::RuleHyp => add_rule_hyp(given, board, store, cells).and(Ok(one_hypothesis())),
        Tag::Induct => add_derived(given, board, store, cells, Way::Induct, memo, ids),
        Tag::InductWith => add_derived(given, board, store, cells, Way::InductWith, memo, ids),
        Tag::Apply => add_derived(given, board, store, cells, Way::Apply, memo, ids),
        Tag::Invert => add_invert(given, board, store, cells, memo, ids),
        Tag::Outcome => result(given, board, store, cells, memo).and(Ok(Counts::NONE)),
    }
}

// A form of the proof, by its cells: what it counts. `ids` and `memo` are scratch: zero before and after. It is apart from `take_goal`, as is said there.
pub fn take_form(
    given: &Given<'_>,
    board: &mut Board<'_>,
    store: &mut Store<'_>,
    cells: &[u32],
    ids: &mut [u32],
    memo: &mut [u32],
) -> Result<Counts, Question>
    requires { TakesFormIn given.now board.old store.old cells.now × Spare ids.old memo.old }
    ensures same_board { SameBoard board.old board.new × SameTables store.old store.new }
    ensures taken_as { (g : TakesFormIn given.now board.old store.old cells.now) →
        TakenIn given.now board.old board.new store.old store.new g.S (take_form g.x g.S) result }
    ensures spare_unchanged { (ids.new ≡ ids.old) × (memo.new ≡ memo.old) }
{
    let inner = items::list(cells, 0).ok_or(Question::ProofForm)?;
    let mark = store.mark;
    let taken = form_items(given, board, store, inner, ids, memo);
    if taken.is_err() {
        store.forget(mark);
    }
    taken
}
