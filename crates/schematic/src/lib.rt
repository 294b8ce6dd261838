// The whole check over lent tables and records of facts: the tables are cut to their named lengths, cleared, and filled form by form.
#![tactic(auto)]

ghost use Rattle.std.specs.Prelude.{◌≡◌, ◌≤◌, length, drop};
ghost use Rattle.rules.specs.Limits.{GOALS, FACTS};
ghost use Rattle.kernel.specs.Parsed.{theory_lists, Exact};
ghost use Rattle.kernel.specs.Tables.{lists_of, SameTables as SameTheory};
ghost use Rattle.terms.specs.Lent.{SameTables};
ghost use Rattle.state.specs.Boards.{SameBoard};
ghost use Rattle.state.specs.Stands.{tables_of};
ghost use Rattle.counts.specs.Sum.{none};
ghost use Rattle.running.specs.Finished.{answer_of};
ghost use Rattle.running.specs.Lent.{working, LongWorking};
ghost use Rattle.running.specs.Between.{AllLong};
ghost use Rattle.running.specs.ReadBack.{Call};
ghost use Rattle.running.specs.Checking.{tables_of as all_tables};
ghost use Rattle.beginning.specs.Opened.{Opening};
ghost use Rattle.advancing.specs.Stepped.{IdleIn, SameScratch};
ghost use Rattle.schematic.specs.Ran.{Kept, RanIn, Ran, Whole, Filled, Called};

use advancing::advance::{Scratch, next_form};
use beginning::begin::{begin, given_of};
use beginning::lengths::{self, Lengths};
use counts::Counts;
use facts::Fact;
use kernel::tables::{Counts as Held, Tables};
use questions::Text;
use running::finish::{Report, finish};
use running::refusal::Refusal;
use running::stopped::{Proved, Stopped};
use running::texts::Texts;
use state::board::{Board, Given};
use state::sizes::Sizes;
use terms::store::{Mark, Store};

// The forms of the proof, one after the other: how many there are, and what they count.
fn prove(
    given: &Given<'_>,
    board: &mut Board<'_>,
    store: &mut Store<'_>,
    scratch: &mut Scratch<'_>,
) -> Result<Proved, Stopped>
    requires kept { Kept given.now board.old store.old 0 0 none }
    requires idle { IdleIn scratch.old }
    ensures same_tables { SameBoard board.old board.new × SameTables store.old store.new × SameScratch scratch.old scratch.new }
    ensures ran { RanIn given.now board.new store.new result }
    ensures idle_again { IdleIn scratch.new }
{
    let mut at = 0;
    let mut forms = 0;
    let mut counts = Counts::NONE;
    // from form to form: how many there are is not known before; `next_form` fills lent tables, which an iterator would have to hold and lend on
    loop {
        let next = next_form(given, board, store, scratch, at).map_err(|question| Stopped::left_in(
            Text::Proof,
            question.behind(forms),
        ))?;
        let Some(step) = next else {
            return Ok(Proved { forms, counts });
        };
        counts += step.counts;
        forms += 1;
        at = step.end;
    }
}

// The beginning, and the forms of the proof.
fn run(
    texts: &Texts<'_>,
    tables: &mut Tables<'_>,
    board: &mut Board<'_>,
    store: &mut Store<'_>,
    scratch: &mut Scratch<'_>,
) -> Result<Proved, Stopped>
    requires opening { Opening (lists_of tables.old) (tables_of board.old store.old) scratch.old.cells.now }
    requires idle { IdleIn scratch.old }
    ensures same_tables { SameTheory tables.old tables.new × SameBoard board.old board.new × SameTables store.old store.new × SameScratch scratch.old scratch.new }
    ensures ran { Ran texts.now.theory.now texts.now.goals.now texts.now.proof.now (lists_of tables.new) (tables_of board.new store.new) board.new.n store.new.mark result }
{
    let cells = &mut *scratch.cells;
    begin(texts, tables, board, store, cells)?;
    let given = given_of(texts, texts.proof, tables);
    prove(&given, board, store, scratch)
}

// The check over tables of their named lengths.
fn check_exact(
    texts: &Texts<'_>,
    tables: &mut Tables<'_>,
    board: &mut Board<'_>,
    store: &mut Store<'_>,
    scratch: &mut Scratch<'_>,
    missing: &mut [u32],
) -> Result<Report, Refusal>
    requires opening { Opening (lists_of tables.old) (tables_of board.old store.old) scratch.old.cells.now }
    requires idle { IdleIn scratch.old × (length missing.old ≡ GOALS) }
    ensures same_theory { SameTheory tables.old tables.new }
    ensures same_board { SameBoard board.old board.new }
    ensures same_store { SameTables store.old store.new }
    ensures same_scratch { SameScratch scratch.old scratch.new }
    ensures whole { Whole texts.now.theory.now texts.now.goals.now texts.now.proof.now (lists_of tables.new) (tables_of board.new store.new) missing.new result }
{
    let outcome = run(texts, tables, board, store, scratch);
    finish(outcome, board, store, missing)
}

// The same in tables of the theory of their named lengths, and others that may be longer. These stand one by one: a struct of lent tables was tried, and the
// check loses what becomes of parts that another struct is made of. They are cut by `split_at_mut`: a range (`&mut a[..5]`) was tried on a struct of two parts,
// and of a part that goes into a struct the check knows its length afterwards, and not what it holds. `missing` goes into none, and is cut as they are.
// `first_chunk_mut`, by which test and cut are one step, was tried here and in `check_fit`: `check` is proved from it, and neither of these two is. Of the cut
// tables a search does not find that they were long enough (`WorkingFits`, `TheoryFits`), nor, of a table too short behind the first, that all are as they were.
fn check_long(
    texts: &Texts<'_>,
    tables: &mut Tables<'_>,
    vars: &mut [u32],
    index: &mut [u32],
    words: &mut [u32],
    defs: &mut [u32],
    rows: &mut [u32],
    facts: &mut [Fact],
    lists: &mut [u32],
    missing: &mut [u32],
) -> Result<Report, Refusal>
    requires exact { Exact (lists_of tables.old) }
    requires long { LongWorking (working vars.old index.old words.old defs.old rows.old lists.old) × (GOALS ≤ length missing.old) × (FACTS ≤ length facts.old) }
    ensures same_tables { SameTheory tables.old tables.new }
    ensures filled { Filled texts.now.theory.now texts.now.goals.now texts.now.proof.now (lists_of tables.new)
        (working vars.old index.old words.old defs.old rows.old lists.old) (working vars.new index.new words.new defs.new rows.new lists.new)
        missing.old missing.new facts.old facts.new result }
{
    let mut cells = [0u32; rules::LENGTH];
    let mut ids = [0u32; induction::induct::IDS];
    let mut memo = [0u32; rules::TERMS];
    let (vars, _) = vars.split_at_mut(lengths::VARS);
    let (index, _) = index.split_at_mut(lengths::INDEX);
    let (words, _) = words.split_at_mut(lengths::WORDS);
    let (defs, _) = defs.split_at_mut(lengths::DEFS);
    let (rows, _) = rows.split_at_mut(lengths::ROWS);
    let (facts, _) = facts.split_at_mut(rules::FACTS);
    let (lists, _) = lists.split_at_mut(lengths::LISTS);
    let (missing, _) = missing.split_at_mut(lengths::MISSING);
    let mut board = Board {
        vars,
        defs,
        rows,
        facts,
        lists,
        n: Sizes::from(Held::NONE),
    };
    let mut store = Store {
        index,
        words,
        mark: Mark::NONE,
    };
    let mut scratch = Scratch {
        cells: &mut cells,
        ids: &mut ids,
        memo: &mut memo,
    };
    check_exact(texts, tables, &mut board, &mut store, &mut scratch, missing)
}

// The same in tables that are all long enough. They stand one by one: a struct of lent tables was tried, and the check loses what becomes of parts that
// another struct is made of. So the texts, too, are a struct already, and not made here. Cut as in `check_long`.
fn check_fit(
    texts: &Texts<'_>,
    sorts: &mut [u32],
    symbols: &mut [u32],
    inputs: &mut [u32],
    rules: &mut [u32],
    rulevars: &mut [u32],
    patterns: &mut [u32],
    vars: &mut [u32],
    index: &mut [u32],
    words: &mut [u32],
    defs: &mut [u32],
    rows: &mut [u32],
    facts: &mut [Fact],
    lists: &mut [u32],
    missing: &mut [u32],
) -> Result<Report, Refusal>
    requires { AllLong (length facts.old) (theory_lists sorts.old symbols.old inputs.old rules.old rulevars.old patterns.old) (working vars.old index.old words.old defs.old rows.old lists.old) missing.old }
    ensures { Called texts.now.theory.now texts.now.goals.now texts.now.proof.now
        (theory_lists sorts.old symbols.old inputs.old rules.old rulevars.old patterns.old) (working vars.old index.old words.old defs.old rows.old lists.old) missing.old facts.old
        (theory_lists sorts.new symbols.new inputs.new rules.new rulevars.new patterns.new) (working vars.new index.new words.new defs.new rows.new lists.new) missing.new facts.new
        result }
{
    let (sorts, _) = sorts.split_at_mut(lengths::SORTS);
    let (symbols, _) = symbols.split_at_mut(lengths::SYMBOLS);
    let (inputs, _) = inputs.split_at_mut(lengths::INPUTS);
    let (rules, _) = rules.split_at_mut(lengths::RULES);
    let (rulevars, _) = rulevars.split_at_mut(lengths::RULEVARS);
    let (patterns, _) = patterns.split_at_mut(lengths::PATTERNS);
    let mut tables = Tables {
        sorts,
        symbols,
        inputs,
        rules,
        vars: rulevars,
        patterns,
        held: Held::NONE,
    };
    check_long(
        texts,
        &mut tables,
        vars,
        index,
        words,
        defs,
        rows,
        facts,
        lists,
        missing,
    )
}

// The whole check. The three texts; tables of the theory; variables, the store, abbreviations, goals; facts; entries of lists; the list of question 53.
// Nothing is asked of them; where one is too short, nothing is written. They stand one by one, which makes it long: of its callers `tariff_check` and
// `check_rows` are lent them so, and its contract names each table. A struct of lent tables was tried: the check loses what becomes of parts that another
// struct is made of.
pub fn check(
    theory: &[u8],
    goals: &[u8],
    proof: &[u8],
    sorts: &mut [u32],
    symbols: &mut [u32],
    inputs: &mut [u32],
    rules: &mut [u32],
    rulevars: &mut [u32],
    patterns: &mut [u32],
    vars: &mut [u32],
    index: &mut [u32],
    words: &mut [u32],
    defs: &mut [u32],
    rows: &mut [u32],
    facts: &mut [Fact],
    lists: &mut [u32],
    missing: &mut [u32],
) -> Result<Report, Refusal>
    ensures { Call theory.now goals.now proof.now
        (all_tables
        (theory_lists sorts.old symbols.old inputs.old rules.old rulevars.old patterns.old)
        (working vars.old index.old words.old defs.old rows.old lists.old)
        missing.old facts.old)
        (all_tables (theory_lists sorts.new symbols.new inputs.new rules.new rulevars.new patterns.new)
        (working vars.new index.new words.new defs.new rows.new lists.new)
        missing.new facts.new) (answer_of result) × (drop FACTS facts.new ≡ drop FACTS facts.old) }
{
    let lengths = Lengths {
        sorts: sorts.len(),
        symbols: symbols.len(),
        inputs: inputs.len(),
        rules: rules.len(),
        rulevars: rulevars.len(),
        patterns: patterns.len(),
        vars: vars.len(),
        index: index.len(),
        words: words.len(),
        defs: defs.len(),
        rows: rows.len(),
        lists: lists.len(),
        missing: missing.len(),
        facts: facts.len(),
    };
    if !lengths.fit() {
        return Err(Refusal::Tables);
    }
    let texts = Texts {
        theory,
        goals,
        proof,
    };
    check_fit(
        &texts, sorts, symbols, inputs, rules, rulevars, patterns, vars, index, words, defs, rows,
        facts, lists, missing,
    )
}
