// One form of the proof: the next one is read into cells, taken, and the cells are cleared again.
ghost use Rattle.std.specs.Prelude.{◌≡◌};
ghost use Rattle.terms.specs.Lent.{SameTables};
ghost use Rattle.state.specs.Boards.{SameBoard};
ghost use Rattle.advancing.specs.Stepped.{IdleIn, SameScratch, Ready, AdvancedAs, Stay};

use cells::clear;
use counts::Counts;
use questions::Question;
use sexp::sexp::read_form;
use state::board::{Board, Given};
use taking::take::take_form;
use terms::store::Store;

// The scratch of the forms, zero before and after each: the cells of a form, numbers, and places of terms.
#[derive(Drop)]
pub struct Scratch<'a> {
    pub cells: &'a mut [u32],
    pub ids: &'a mut [u32],
    pub memo: &'a mut [u32],
}

// A form that was taken: where the next one begins, and what it counts. The fact that it stored, if any, stands in the lent records.
#[derive(Clone, Copy)]
pub struct Advance {
    pub end: usize,
    pub counts: Counts,
}

// The form that begins at a place of the proof; none where there is no further one.
pub fn next_form(
    given: &Given<'_>,
    board: &mut Board<'_>,
    store: &mut Store<'_>,
    scratch: &mut Scratch<'_>,
    at: usize,
) -> Result<Option<Advance>, Question>
    requires ready { Ready given.now board.old store.old at }
    requires idle { IdleIn scratch.old }
    ensures same_tables { SameBoard board.old board.new × SameTables store.old store.new × SameScratch scratch.old scratch.new }
    ensures advanced { (g : Ready given.now board.old store.old at) →
        AdvancedAs given.now board.old board.new store.old store.new g.k at g.S result }
    ensures stay { Stay board.old board.new }
    ensures idle_again { IdleIn scratch.new }
{
    let cells = &mut *scratch.cells;
    let ids = &mut *scratch.ids;
    let memo = &mut *scratch.memo;
    let Some(form) = read_form(given.text, at, cells)? else {
        return Ok(None);
    };
    let taken = take_form(given, board, store, &cells[..form.cells], ids, memo);
    clear(&mut cells[..form.cells]);
    let counts = taken?;
    Ok(Some(Advance {
        end: form.end,
        counts,
    }))
}
