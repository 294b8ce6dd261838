// `(var NAME SORT)` and `(def ?NAME TERM)`: questions 21 and 33.
ghost use Rattle.std.specs.Prelude.{◌≡◌, ◌^◌, ◌<◌};
ghost use Rattle.rules.specs.State.{State};
ghost use Rattle.rules.specs.Forms.{add_var, add_def};
ghost use Rattle.questions.specs.Numbers.{text_number};
ghost use Rattle.terms.specs.Lent.{SameTables};
ghost use Rattle.state.specs.Boards.{SameBoard, OnlyVars, OnlyDefs};
ghost use Rattle.forms.specs.Boards.{LooksUp, KnownIn, AddsVarIn, ReadsFormIn};
ghost use Rattle.forms.specs.Declares.{unused, VarAs, NamedAs, DefAs};

use cells::Span;
use kernel::atoms::marked;
use kernel::names::SortTable;
use questions::{Question, Row, Text};
use reading::reader::reader_of;
use rules::{DEFS, VARIABLES};
use sexp::items::Item;
use sexp::{items, lex};
use state::board::{Board, Given};
use state::defs::{def_named, put_def};
use state::vars::put_var_row;
use terms::store::Store;

// Whether no constructor, predicate or variable has these bytes for a name.
fn is_unused(given: &Given<'_>, board: &Board<'_>, name: &[u8]) -> bool
    requires { LooksUp given.now board.now }
    ensures { (S : State) → KnownIn given.now board.now S → result ≡ unused S name.now }
{
    let reader = reader_of(given, board);
    let symbols = reader.symbol_table();
    let vars = reader.var_table();
    symbols.constructor_named(name).is_none()
        && symbols.predicate_named(name).is_none()
        && vars.named(name).is_none()
}

// `(var NAME SORT)`, by the items of the form; `which` is the number of the text in which its name stands (`Text::number`), or any other that fits into a
// cell.
pub fn add_var_of(
    given: &Given<'_>,
    board: &mut Board<'_>,
    which: usize,
    cells: &[u32],
) -> Result<(), Question>
    requires { AddsVarIn given.now board.old cells.now × (which < 2 ^ 32) }
    ensures same_board { SameBoard board.old board.new }
    ensures only { OnlyVars board.old board.new }
    ensures var_as { (g : AddsVarIn given.now board.old cells.now) →
        VarAs given.now board.old board.new which g.S (add_var which g.xs g.S) result }
{
    let Item::Atom(start) = items::nth(cells, 1) else {
        return Err(Question::Variable);
    };
    let bytes = given.text;
    let own = items::head(bytes, items::from(cells, 2)).ok_or(Question::Variable)?;
    let sorts = SortTable {
        text: given.theory,
        rows: given.sorts,
        count: board.n.sorts,
    };
    let sort = sorts.named(own).ok_or(Question::Variable)?;
    if marked(bytes, start) {
        return Err(Question::Variable);
    }
    let name = lex::atom_span(bytes, start);
    if !is_unused(given, board, name.of(bytes)) {
        return Err(Question::Variable);
    }
    if board.n.vars >= VARIABLES {
        return Err(Question::Room(Row::Variables));
    }
    put_var_row(board.vars, board.n.vars, sort, which, name);
    board.n.vars += 1;
    Ok(())
}

// The same, with the text in which its name stands.
pub fn add_var(
    given: &Given<'_>,
    board: &mut Board<'_>,
    text: Text,
    cells: &[u32],
) -> Result<(), Question>
    requires { AddsVarIn given.now board.old cells.now }
    ensures same_board { SameBoard board.old board.new }
    ensures only { OnlyVars board.old board.new }
    ensures var_as { (g : AddsVarIn given.now board.old cells.now) → let which = text_number text in
        VarAs given.now board.old board.new which g.S (add_var which g.xs g.S) result }
{
    add_var_of(given, board, text.number(), cells)
}

// An abbreviation by its row: where its name stands in the text, and the number of its term.
#[derive(Clone, Copy, Debug, PartialEq, Eq)]
pub struct Abbreviation {
    pub name: Span,
    pub term: usize,
}

// What `(def ?NAME TERM)` abbreviates, by the items of the form, and that there is room for it. The name is compared behind the term.
fn new_def(
    given: &Given<'_>,
    board: &Board<'_>,
    store: &mut Store<'_>,
    cells: &[u32],
) -> Result<Abbreviation, Question>
    requires { ReadsFormIn given.now board.now store.old cells.now 3 }
    ensures same_tables { SameTables store.old store.new }
    ensures named_as { (g : ReadsFormIn given.now board.now store.old cells.now 3) →
        NamedAs given.now board.now store.old store.new g.S (add_def g.xs g.S) result }
{
    let Item::Atom(start) = items::nth(cells, 1) else {
        return Err(Question::Defined);
    };
    let text = given.text;
    if !marked(text, start) {
        return Err(Question::Defined);
    }
    let name = lex::atom_span(text, start);
    if name.end < start + 2 {
        return Err(Question::Defined);
    }
    let typed = reader_of(given, board).term(store, items::from(cells, 2))?;
    if def_named(text, board.defs, board.n.defs, name.of(text)).is_some() {
        return Err(Question::Defined);
    }
    if board.n.defs >= DEFS {
        return Err(Question::Room(Row::Abbreviations));
    }
    Ok(Abbreviation {
        name,
        term: typed.term,
    })
}

// `(def ?NAME TERM)`, by the items of the form.
pub fn add_def(
    given: &Given<'_>,
    board: &mut Board<'_>,
    store: &mut Store<'_>,
    cells: &[u32],
) -> Result<(), Question>
    requires { ReadsFormIn given.now board.old store.old cells.now 3 }
    ensures same_board { SameBoard board.old board.new × SameTables store.old store.new }
    ensures only { OnlyDefs board.old board.new }
    ensures def_as { (g : ReadsFormIn given.now board.old store.old cells.now 3) →
        DefAs given.now board.old board.new store.old store.new g.S (add_def g.xs g.S) result }
{
    let new = new_def(given, board, store, cells)?;
    put_def(board.defs, board.n.defs, new.name, new.term);
    board.n.defs += 1;
    Ok(())
}
