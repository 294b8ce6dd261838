// The beginning of a check, over tables of their named lengths: they are cleared, the texts are asked, the theory is judged, the goals are taken.
ghost use Rattle.std.specs.Prelude.{◌≡◌};
ghost use Rattle.kernel.specs.Tables.{lists_of, SameTables as SameTheory};
ghost use Rattle.terms.specs.Lent.{SameTables};
ghost use Rattle.state.specs.Boards.{SameBoard};
ghost use Rattle.state.specs.Stands.{tables_of};
ghost use Rattle.beginning.specs.Given.{given_of};
ghost use Rattle.beginning.specs.Opened.{Opening, Opened};

use crate::goals::pose;
use crate::tables::{clear_board, clear_theory};
use crate::texts::ask;
use kernel::parse::parse_exact;
use kernel::rule_readers::Rules;
use kernel::tables::Tables;
use questions::Text;
use running::stopped::Stopped;
use running::texts::Texts;
use state::board::{Board, Given};
use state::sizes::Sizes;
use terms::store::Store;

// What the forms of a text are given. Field by field: what `Tables` lends to be filled is lent anew here, to be read; a method for a part of it would say no less.
pub fn given_of<'a>(texts: &'a Texts<'_>, text: &'a [u8], tables: &'a Tables<'_>) -> Given<'a>
    ensures { result ≡ given_of texts.now.theory texts.now.goals text.entry tables.now }
{
    Given {
        theory: texts.theory,
        goals: texts.goals,
        text,
        sorts: tables.sorts,
        symbols: tables.symbols,
        inputs: tables.inputs,
        rules: Rules {
            rows: tables.rules,
            vars: tables.vars,
            patterns: tables.patterns,
        },
    }
}

// Up to the first form of the proof. `cells` is scratch: zero before and after.
pub fn begin(
    texts: &Texts<'_>,
    tables: &mut Tables<'_>,
    board: &mut Board<'_>,
    store: &mut Store<'_>,
    cells: &mut [u32],
) -> Result<(), Stopped>
    requires { Opening (lists_of tables.old) (tables_of board.old store.old) cells.old }
    ensures same_tables { SameTheory tables.old tables.new × SameBoard board.old board.new × SameTables store.old store.new }
    ensures opened { Opened texts.now.theory.now texts.now.goals.now texts.now.proof.now (lists_of tables.new) (tables_of board.new store.new) board.new.n store.new.mark result }
    ensures cells_unchanged { cells.new ≡ cells.old }
{
    clear_board(board, store);
    // no `map_err`: it promises what its closure answers, and not what that leaves in the tables
    if let Err(stopped) = ask(texts) {
        clear_theory(tables);
        return Err(stopped);
    }
    let judged = parse_exact(texts.theory, cells, tables);
    board.n = Sizes::from(tables.held);
    judged.map_err(|refused| Stopped::left_in(Text::Theory, refused))?;
    let given = given_of(texts, texts.goals, tables);
    pose(&given, board, store, cells).map_err(|refused| Stopped::left_in(Text::Goals, refused))
}
