// What the forms share that list judgments and state one behind them: goals with hypotheses, and hypotheses with premises.
ghost use Rattle.std.specs.Prelude.{◌≡◌, length, replicate};
ghost use Rattle.rules.specs.Tree.{Tree, Trees};
ghost use Rattle.rules.specs.Out.{Out};
ghost use Rattle.rules.specs.State.{State};
ghost use Rattle.terms.specs.Lent.{SameTables};
ghost use Rattle.forms.specs.Boards.{ReadsApart};
ghost use Rattle.forms.specs.Stating.{stating, StatedAs};

use cells::or_cleared;
use questions::Question;
use reading::reader::Reader;
use sexp::items;
use state::board::Given;
use state::sizes::Sizes;
use terms::store::Store;

// A judgment by its number, and how many are listed before it.
#[derive(Clone, Copy, Debug, PartialEq, Eq)]
pub struct Stated {
    pub judgment: usize,
    pub listed: usize,
}

// The judgments that item 2 of a form lists, and the judgment that is item 3. The numbers of those listed come into the cells `out` as far as there are
// any; these are zero before, and again where a form is refused. They are part of the board's lists, so that the tables of names come apart from it: of a
// whole board it would have to be said besides that its other tables, and the front of the lists, are as they were. With a `Reader` for the first four, from
// one maker with `reader_of`, `add_goal_with` did not close: that variables and abbreviations are as they were is not known once that loan ends (`only`).
pub fn read_stated(
    given: &Given<'_>,
    vars: &[u32],
    defs: &[u32],
    n: Sizes,
    store: &mut Store<'_>,
    cells: &[u32],
    out: &mut [u32],
) -> Result<Stated, Question>
    requires reads_form { ReadsApart given.now vars.now defs.now n store.old cells.now 4 }
    requires out_value { out.old ≡ replicate (length out.old) 0 }
    ensures same_tables { SameTables store.old store.new }
    ensures stated_as { (g : ReadsApart given.now vars.now defs.now n store.old cells.now 4) →
        (next : Trees → Tree → State → Out State (Unit {0})) → StatedAs store.old store.new g.S (stating g.xs g.S next) next out.old out.new result }
{
    let reader = Reader {
        theory: given.theory,
        goals: given.goals,
        text: given.text,
        symbols: given.symbols,
        inputs: given.inputs,
        vars,
        defs,
        n,
    };
    let listed = reader.judgments(store, items::from(cells, 2), out)?;
    let read = reader.judgment(store, items::from(cells, 3));
    let judgment = or_cleared(read, out)?;
    Ok(Stated { judgment, listed })
}
