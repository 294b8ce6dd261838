// The goals: read whole first, then taken form by form, then question 25.
ghost use Rattle.std.specs.Prelude.{◌≡◌};
ghost use Rattle.rules.specs.Sexp.{read};
ghost use Rattle.rules.specs.State.{begin};
ghost use Rattle.rules.specs.Forms.{take_goal};
ghost use Rattle.rules.specs.Loop.{through, whole};
ghost use Rattle.terms.specs.Lent.{SameTables};
ghost use Rattle.state.specs.Boards.{SameBoard};
ghost use Rattle.state.specs.Stands.{tables_of};
ghost use Rattle.forms.specs.Boards.{texts_of, theory_of};
ghost use Rattle.beginning.specs.Posed.{theory_in, Posing, Posed};

use cells::clear;
use questions::{Question, Refused};
use sexp::sexp::{read_all, read_form};
use state::board::{Board, Given};
use taking::take::take_goal;
use terms::store::Store;

// The forms of the goals, one after the other, and question 25 behind them.
fn take_goals(
    given: &Given<'_>,
    board: &mut Board<'_>,
    store: &mut Store<'_>,
    cells: &mut [u32],
) -> Result<(), Refused>
    requires { Posing (texts_of given.now) (theory_of given.now) (tables_of board.old store.old) board.old.n store.old.mark cells.old }
    ensures same_tables { SameBoard board.old board.new × SameTables store.old store.new }
    ensures posed { Posed (texts_of given.now) (theory_of given.now) (tables_of board.new store.new) board.new.n store.new.mark
        (through take_goal (read given.now.goals.now) 0 (begin (theory_in given.now.theory.now))) result }
    ensures cells_unchanged { cells.new ≡ cells.old }
{
    let mut forms = 0;
    let mut at = 0;
    // From form to form: how many there are is not known before, so that no range is walked. A form is read into lent cells and taken into lent tables: a
    // walker that is handed what to do with it would be handed all of these and their contracts with it, and this loop, which says no more, would stand in it.
    loop {
        let read = read_form(given.goals, at, cells);
        // a text that was read whole before is not refused here
        let Some(form) = read.map_err(|question| question.behind(forms))? else {
            break;
        };
        let taken = take_goal(given, board, store, &cells[..form.cells]);
        clear(&mut cells[..form.cells]);
        taken.map_err(|question| question.behind(forms))?;
        forms += 1;
        at = form.end;
    }
    if board.n.goals == 0 {
        return Err(Question::NoGoal.behind(forms));
    }
    Ok(())
}

// The goals, where the theory stands in its tables.
pub fn pose(
    given: &Given<'_>,
    board: &mut Board<'_>,
    store: &mut Store<'_>,
    cells: &mut [u32],
) -> Result<(), Refused>
    requires { Posing (texts_of given.now) (theory_of given.now) (tables_of board.old store.old) board.old.n store.old.mark cells.old }
    ensures same_tables { SameBoard board.old board.new × SameTables store.old store.new }
    ensures posed { Posed (texts_of given.now) (theory_of given.now) (tables_of board.new store.new) board.new.n store.new.mark
        (whole take_goal (read given.now.goals.now) (begin (theory_in given.now.theory.now))) result }
    ensures cells_unchanged { cells.new ≡ cells.old }
{
    read_all(given.goals)?;
    take_goals(given, board, store, cells)
}
