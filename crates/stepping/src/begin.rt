// The beginning of a check, in tables that may be longer than named.
ghost use Rattle.std.specs.Prelude.{◌≡◌, ◌≤◌, length, replicate};
ghost use Rattle.rules.specs.Limits.{LENGTH, FACTS};
ghost use Rattle.kernel.specs.Parsed.{theory_lists, Exact, Roomy};
ghost use Rattle.kernel.specs.Tables.{lists_of, SameTables as SameTheory};
ghost use Rattle.running.specs.Lent.{working, LongWorking};
ghost use Rattle.stepping.specs.Parts.{refused_by};
ghost use Rattle.stepping.specs.Begun.{OpenedIn, Started, Begun};

use crate::used::Used;
use beginning::begin::begin as begin_exact;
use beginning::lengths::{self, Lengths};
use cells::clear;
use facts::Fact;
use kernel::tables::{Counts as Held, Tables};
use running::refusal::Refusal;
use running::stopped::Stopped;
use running::texts::Texts;
use state::board::Board;
use state::sizes::Sizes;
use terms::store::{Mark, Store};

// A question that is left in a text, as a refusal.
fn refused_by(started: Result<(), Stopped>) -> Result<(), Refusal>
    ensures { result ≡ refused_by started }
{
    match started {
        Ok(()) => Ok(()),
        Err(stopped) => Err(Refusal::Stopped(stopped)),
    }
}

// In tables of the theory of their named lengths, and others that may be longer. These stand one by one, and are cut by `split_at_mut`, as `check` of
// `schematic` is lent and cuts them.
fn begin_long(
    texts: &Texts<'_>,
    used: &mut Used,
    tables: &mut Tables<'_>,
    vars: &mut [u32],
    index: &mut [u32],
    words: &mut [u32],
    defs: &mut [u32],
    rows: &mut [u32],
    facts: &mut [Fact],
    lists: &mut [u32],
    cells: &mut [u32],
) -> Result<(), Stopped>
    requires exact { Exact (lists_of tables.old) }
    requires long { LongWorking (working vars.old index.old words.old defs.old rows.old lists.old) × (FACTS ≤ length facts.old) × (cells.old ≡ replicate LENGTH 0) }
    ensures same_tables { SameTheory tables.old tables.new }
    ensures opened { OpenedIn texts.now.theory.now texts.now.goals.now texts.now.proof.now (lists_of tables.new)
        (working vars.old index.old words.old defs.old rows.old lists.old) (working vars.new index.new words.new defs.new rows.new lists.new)
        facts.old facts.new used.new result }
    ensures cells_unchanged { cells.new ≡ cells.old }
{
    let (vars, _) = vars.split_at_mut(lengths::VARS);
    let (index, _) = index.split_at_mut(lengths::INDEX);
    let (words, _) = words.split_at_mut(lengths::WORDS);
    let (defs, _) = defs.split_at_mut(lengths::DEFS);
    let (rows, _) = rows.split_at_mut(lengths::ROWS);
    let (facts, _) = facts.split_at_mut(rules::FACTS);
    let (lists, _) = lists.split_at_mut(lengths::LISTS);
    let mut board = Board {
        vars,
        defs,
        rows,
        facts,
        lists,
        n: Sizes::from(Held::NONE),
    };
    let mut store = Store {
        index,
        words,
        mark: Mark::NONE,
    };
    let opened = begin_exact(texts, tables, &mut board, &mut store, cells);
    used.n = board.n;
    used.mark = store.mark;
    opened
}

// In tables that are all long enough.
fn begin_fit(
    texts: &Texts<'_>,
    used: &mut Used,
    sorts: &mut [u32],
    symbols: &mut [u32],
    inputs: &mut [u32],
    rules: &mut [u32],
    rulevars: &mut [u32],
    patterns: &mut [u32],
    vars: &mut [u32],
    index: &mut [u32],
    words: &mut [u32],
    defs: &mut [u32],
    rows: &mut [u32],
    facts: &mut [Fact],
    lists: &mut [u32],
    cells: &mut [u32],
) -> Result<(), Stopped>
    requires theory { Roomy (theory_lists sorts.old symbols.old inputs.old rules.old rulevars.old patterns.old) }
    requires long { LongWorking (working vars.old index.old words.old defs.old rows.old lists.old) × (FACTS ≤ length facts.old) × (cells.old ≡ replicate LENGTH 0) }
    ensures started { Started texts.now.theory.now texts.now.goals.now texts.now.proof.now
        (theory_lists sorts.old symbols.old inputs.old rules.old rulevars.old patterns.old) (theory_lists sorts.new symbols.new inputs.new rules.new rulevars.new patterns.new)
        (working vars.old index.old words.old defs.old rows.old lists.old) (working vars.new index.new words.new defs.new rows.new lists.new)
        facts.old facts.new used.new result }
    ensures cells_unchanged { cells.new ≡ cells.old }
{
    let (sorts, _) = sorts.split_at_mut(lengths::SORTS);
    let (symbols, _) = symbols.split_at_mut(lengths::SYMBOLS);
    let (inputs, _) = inputs.split_at_mut(lengths::INPUTS);
    let (rules, _) = rules.split_at_mut(lengths::RULES);
    let (rulevars, _) = rulevars.split_at_mut(lengths::RULEVARS);
    let (patterns, _) = patterns.split_at_mut(lengths::PATTERNS);
    let mut tables = Tables {
        sorts,
        symbols,
        inputs,
        rules,
        vars: rulevars,
        patterns,
        held: Held::NONE,
    };
    begin_long(
        texts,
        used,
        &mut tables,
        vars,
        index,
        words,
        defs,
        rows,
        facts,
        lists,
        cells,
    )
}

// Up to the first form of the proof: question 1, the list of question 53 cleared, and the beginning. Nothing is asked of the tables; where one is too short,
// nothing is written. `cells` is scratch: zero before and after.
pub fn begin(
    texts: &Texts<'_>,
    used: &mut Used,
    sorts: &mut [u32],
    symbols: &mut [u32],
    inputs: &mut [u32],
    rules: &mut [u32],
    rulevars: &mut [u32],
    patterns: &mut [u32],
    vars: &mut [u32],
    index: &mut [u32],
    words: &mut [u32],
    defs: &mut [u32],
    rows: &mut [u32],
    facts: &mut [Fact],
    lists: &mut [u32],
    missing: &mut [u32],
    cells: &mut [u32],
) -> Result<(), Refusal>
    requires { cells.old ≡ replicate LENGTH 0 }
    ensures begun { Begun texts.now.theory.now texts.now.goals.now texts.now.proof.now
        (theory_lists sorts.old symbols.old inputs.old rules.old rulevars.old patterns.old) (theory_lists sorts.new symbols.new inputs.new rules.new rulevars.new patterns.new)
        (working vars.old index.old words.old defs.old rows.old lists.old) (working vars.new index.new words.new defs.new rows.new lists.new)
        missing.old missing.new facts.old facts.new used.old used.new result }
    ensures cells_unchanged { cells.new ≡ cells.old }
{
    let lengths = Lengths {
        sorts: sorts.len(),
        symbols: symbols.len(),
        inputs: inputs.len(),
        rules: rules.len(),
        rulevars: rulevars.len(),
        patterns: patterns.len(),
        vars: vars.len(),
        index: index.len(),
        words: words.len(),
        defs: defs.len(),
        rows: rows.len(),
        lists: lists.len(),
        missing: missing.len(),
        facts: facts.len(),
    };
    if !lengths.fit() {
        return Err(Refusal::Tables);
    }
    let (list, _) = missing.split_at_mut(lengths::MISSING);
    clear(list);
    let started = begin_fit(
        texts, used, sorts, symbols, inputs, rules, rulevars, patterns, vars, index, words, defs,
        rows, facts, lists, cells,
    );
    refused_by(started)
}
