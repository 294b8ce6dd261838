// `(goal NAME JUDGMENT)` and `(goal NAME (HYPOTHESIS...) JUDGMENT)`: questions 22 to 24, then rows 11 and 13. The text that is read is that of the goals,
// in which their names stand.
ghost use Rattle.std.specs.Prelude.{◌≡◌, ◌-◌, ◌<◌, ◌^◌, length, drop, replicate};
ghost use Rattle.rules.specs.Limits.{ENTRIES};
ghost use Rattle.rules.specs.Sexp.{item};
ghost use Rattle.rules.specs.Tags.{a_goal, a_goal_with};
ghost use Rattle.rules.specs.Tree.{Tree, Trees, count_trees};
ghost use Rattle.rules.specs.Forms.{goal, add_goal};
ghost use Rattle.terms.specs.Lent.{SameTables};
ghost use Rattle.state.specs.Boards.{SameBoard, OnlyRows, OnlyGoals};
ghost use Rattle.forms.specs.Boards.{GoalPlaceIn, AddsGoalIn};
ghost use Rattle.forms.specs.Goals.{PlacedAs, AimedAs};

use crate::stating::{Stated, read_stated};
use cells::or_cleared;
use questions::{Question, Row};
use reading::reader::reader_of;
use rules::{ENTRIES, GOALS};
use sexp::items::Item;
use sexp::{items, lex};
use state::board::{Board, Given};
use state::goals::put_goal;
use terms::store::Store;

// The name, rows 11 and 13, and the row, by the items of the form; the numbers of so many hypotheses stand behind the entries already, as far as there
// is room.
fn place_goal(
    given: &Given<'_>,
    board: &mut Board<'_>,
    cells: &[u32],
    stated: Stated,
) -> Result<(), Question>
    requires { GoalPlaceIn given.now board.old cells.now × (stated.judgment < 2 ^ 32) }
    ensures same_board { SameBoard board.old board.new }
    ensures only { OnlyRows board.old board.new }
    ensures placed_as { (g : GoalPlaceIn given.now board.old cells.now) (hs : Trees) (j : Tree) → stated.listed ≡ count_trees hs →
        PlacedAs given.now board.old board.new stated.judgment g.S hs j (add_goal (item g.xs 1) hs j g.S) result }
{
    let Item::Atom(start) = items::nth(cells, 1) else {
        return Err(Question::GoalName);
    };
    let text = given.text;
    let name = lex::atom_span(text, start);
    let n = board.n;
    let known = board.goal_table().named(text, name.of(text));
    if known.is_some() {
        return Err(Question::GoalName);
    }
    if n.goals >= GOALS {
        return Err(Question::Room(Row::Goals));
    }
    // not by `recorded::room`: that asks for room of one fact more first, and a goal needs none
    let room = ENTRIES - n.entries;
    if room < stated.listed {
        return Err(Question::Room(Row::Entries));
    }
    put_goal(
        board.rows,
        n.goals,
        name,
        stated.judgment,
        n.entries,
        stated.listed,
    );
    board.n.goals += 1;
    board.n.entries += stated.listed;
    Ok(())
}

// `(goal NAME JUDGMENT)`, by the items of the form.
pub fn add_goal(
    given: &Given<'_>,
    board: &mut Board<'_>,
    store: &mut Store<'_>,
    cells: &[u32],
) -> Result<(), Question>
    requires { AddsGoalIn given.now board.old store.old cells.now 3 }
    ensures same_board { SameBoard board.old board.new × SameTables store.old store.new }
    ensures only { OnlyRows board.old board.new }
    ensures aimed_as { (g : AddsGoalIn given.now board.old store.old cells.now 3) →
        AimedAs given.now board.old board.new store.old store.new g.S (goal a_goal g.xs g.S) result }
{
    // a copy, whose references may be lent for as short as the board's
    let own = *given;
    let judgment = reader_of(&own, board).judgment(store, items::from(cells, 2))?;
    let stated = Stated {
        judgment,
        listed: 0,
    };
    place_goal(given, board, cells, stated)
}

// `(goal NAME (HYPOTHESIS...) JUDGMENT)`, by the items of the form. The lists are zero behind their entries.
pub fn add_goal_with(
    given: &Given<'_>,
    board: &mut Board<'_>,
    store: &mut Store<'_>,
    cells: &[u32],
) -> Result<(), Question>
    requires adds_goal { AddsGoalIn given.now board.old store.old cells.now 4 }
    requires lists_len { (length board.old.lists.now ≡ ENTRIES) × (drop board.old.n.entries board.old.lists.now ≡ replicate (ENTRIES - board.old.n.entries) 0) }
    ensures same_board { SameBoard board.old board.new × SameTables store.old store.new }
    ensures only { OnlyGoals board.old board.new }
    ensures aimed_as { (g : AddsGoalIn given.now board.old store.old cells.now 4) →
        AimedAs given.now board.old board.new store.old store.new g.S (goal a_goal_with g.xs g.S) result }
{
    let n = board.n;
    let from = n.entries;
    // the tables of names apart from the lists, which are written meanwhile
    let vars = &mut *board.vars;
    let defs = &mut *board.defs;
    let lists = &mut *board.lists;
    let stated = read_stated(given, vars, defs, n, store, cells, &mut lists[from..])?;
    let placed = place_goal(given, board, cells, stated);
    or_cleared(placed, &mut board.lists[from..])
}
