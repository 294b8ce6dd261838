// `(hyp N JUDGMENT)` and `(hyp N (PREMISE...) JUDGMENT (VAR...))`: facts that are assumed, each resting on itself.
ghost use Rattle.std.specs.Prelude.{◌≡◌, List, ℕ, ◌*◌, length};
ghost use Rattle.rules.specs.Limits.{FACTS};
ghost use Rattle.rules.specs.Forms.{add_hyp, add_rule_hyp};
ghost use Rattle.terms.specs.Lent.{SameTables};
ghost use Rattle.state.specs.Boards.{SameBoard, OnlyHyps};
ghost use Rattle.forms.specs.Boards.{AddsFactIn, PutsIn};
ghost use Rattle.forms.specs.Assumed.{AssumedAs, RulePutAs};

use crate::stating::read_stated;
use cells::{or_cleared, write};
use questions::{Question, Row};
use reading::reader::reader_of;
use rules::VARIABLES;
use sexp::items;
use state::board::{Board, Given};
use state::recorded::room;
use terms::store::Store;

// `(hyp N JUDGMENT)`, by the items of the form. The board and the store are lent as two, here and in the other forms: names are read from the board while
// the store is filled, so that a struct of both would be taken apart in each.
pub fn add_hyp(
    given: &Given<'_>,
    board: &mut Board<'_>,
    store: &mut Store<'_>,
    cells: &[u32],
) -> Result<(), Question>
    requires { AddsFactIn given.now board.old store.old cells.now 3 }
    ensures same_board { SameBoard board.old board.new × SameTables store.old store.new }
    ensures only { OnlyHyps board.old board.new }
    ensures assumed_as { (g : AddsFactIn given.now board.old store.old cells.now 3) →
        AssumedAs board.old board.new g.footings store.old store.new g.S (add_hyp g.xs g.S) result }
{
    // a copy, whose references may be lent for as short as the board's
    let own = *given;
    let judgment = reader_of(&own, board).judgment(store, items::from(cells, 2))?;
    board.put_hypothesis(judgment, 0, 0)?;
    Ok(())
}

// A hypothesis behind the others; so many premises stand behind its own entry already, as far as there is room, and the generalised variables come
// behind these. The room is asked before they are written, though `put_hypothesis` asks it again: with its asking alone they would be written as far as
// there is room, and a refusal would have to say what is left of them.
fn put_rule(
    board: &mut Board<'_>,
    judgment: usize,
    premises: usize,
    general: &[u32],
) -> Result<(), Row>
    requires { PutsIn board.old judgment }
    ensures same_board { SameBoard board.old board.new }
    ensures only { OnlyHyps board.old board.new }
    ensures put_as { (footings : List ℕ) → length footings ≡ 4 * FACTS → RulePutAs board.old board.new footings judgment premises general.now result }
{
    let many = general.len();
    // the premises are as many as the form lists, which may be more than can be counted with the others
    let end = room(board.n, premises.saturating_add(1 + many))?;
    let at = end - many;
    write(&mut board.lists[at..], general);
    board.put_hypothesis(judgment, premises, many)
}

// `(hyp N (PREMISE...) JUDGMENT (VAR...))`, by the items of the form.
pub fn add_rule_hyp(
    given: &Given<'_>,
    board: &mut Board<'_>,
    store: &mut Store<'_>,
    cells: &[u32],
) -> Result<(), Question>
    requires { AddsFactIn given.now board.old store.old cells.now 5 }
    ensures same_board { SameBoard board.old board.new × SameTables store.old store.new }
    ensures only { OnlyHyps board.old board.new }
    ensures assumed_as { (g : AddsFactIn given.now board.old store.old cells.now 5) →
        AssumedAs board.old board.new g.footings store.old store.new g.S (add_rule_hyp g.xs g.S) result }
{
    let n = board.n;
    // the tables of names apart from the lists, which are written meanwhile
    let vars = &mut *board.vars;
    let defs = &mut *board.defs;
    let lists = &mut *board.lists;
    // behind its own entry, as far as there is room
    let from = lists.len().min(n.entries + 1);
    let stated = read_stated(given, vars, defs, n, store, cells, &mut lists[from..])?;
    // the variables that it generalises, which item 4 lists
    let own = *given;
    let mut general = [0u32; VARIABLES];
    let listed = reader_of(&own, board).vars_list(items::from(cells, 4), &mut general);
    let many = or_cleared(listed.ok_or(Question::Binding), &mut board.lists[from..])?;
    let put = put_rule(board, stated.judgment, stated.listed, &general[..many]);
    or_cleared(put, &mut board.lists[from..])?;
    Ok(())
}
