// The tables cleared.
ghost use Rattle.std.specs.Prelude.{◌≡◌};
ghost use Rattle.rules.specs.Theory.{no_theory};
ghost use Rattle.kernel.specs.Parsed.{Exact, theory_tables};
ghost use Rattle.kernel.specs.Tables.{lists_of, SameTables as SameTheory};
ghost use Rattle.terms.specs.Lent.{SameTables};
ghost use Rattle.state.specs.Boards.{SameBoard};
ghost use Rattle.state.specs.Stands.{tables_of};
ghost use Rattle.beginning.specs.Opened.{Lending, Cleared};

use cells::clear;
use facts::zero_behind;
use kernel::tables::{Counts, Tables};
use rules::FACTS;
use state::board::Board;
use state::sizes::Sizes;
use terms::store::{Mark, Store};

// The tables of a theory that declares nothing.
pub fn clear_theory(tables: &mut Tables<'_>)
    requires { Exact (lists_of tables.old) }
    ensures same_tables { SameTheory tables.old tables.new }
    ensures cleared { lists_of tables.new ≡ theory_tables no_theory }
{
    clear(tables.sorts);
    clear(tables.symbols);
    clear(tables.inputs);
    clear(tables.rules);
    clear(tables.vars);
    clear(tables.patterns);
}

// The tables of a check that has nothing but a theory.
pub fn clear_board(board: &mut Board<'_>, store: &mut Store<'_>)
    requires { Lending (tables_of board.old store.old) }
    ensures same_tables { SameBoard board.old board.new × SameTables store.old store.new }
    ensures cleared { Cleared (tables_of board.new store.new) board.new.n store.new.mark }
{
    clear(board.vars);
    clear(store.index);
    clear(store.words);
    clear(board.defs);
    clear(board.rows);
    zero_behind(board.facts, 0, FACTS);
    clear(board.lists);
    store.mark = Mark::NONE;
    board.n = Sizes::from(Counts::NONE);
}
