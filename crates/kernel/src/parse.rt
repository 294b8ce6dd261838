// A theory's text: read whole first, then judged declaration by declaration.
ghost use Rattle.std.specs.Prelude.{◌≡◌};
ghost use Rattle.rules.specs.Sexp.{read};
ghost use Rattle.rules.specs.Theory.{no_theory};
ghost use Rattle.rules.specs.Declare.{declare};
ghost use Rattle.rules.specs.Loop.{through};
ghost use Rattle.kernel.specs.Parsed.{theory_lists, Roomy, Exact, no_counts, counts_of, Run, JudgedAs, theory_of, verdict, laid_theory, theory_tables, LaidHeld};
ghost use Rattle.kernel.specs.Tables.{lists_of, SameTables};
ghost use Rattle.sexp.specs.Through.{Legible};

use crate::declare::declare;
use crate::tables::{Counts, Tables};
use cells::clear;
use questions::Refused;
use sexp::sexp::{read_all, read_form};

// The declarations of a text, form by form, into tables of exactly the named lengths, of which nothing is used.
fn declarations(text: &[u8], cells: &mut [u32], tables: &mut Tables<'_>) -> Result<usize, Refused>
    requires legible { Legible text.now cells.old }
    requires exact { Exact (lists_of tables.old) }
    requires empty { tables.old.held ≡ no_counts }
    ensures same_tables { SameTables tables.old tables.new }
    ensures run { Run text.now (lists_of tables.new) tables.new.held (through declare (read text.now) 0 no_theory) result }
    ensures cells_unchanged { cells.new ≡ cells.old }
{
    let mut forms = 0;
    let mut at = 0;
    // From form to form, which is no count; a form is read into lent cells and declared into lent tables: an iterator could not lend the cells on, and a
    // walker that is handed what to do with a form would be handed all of these and their contracts with it.
    loop {
        // a text that was read whole before is not refused here
        let next = read_form(text, at, cells).map_err(|question| question.behind(forms))?;
        let Some(form) = next else {
            return Ok(forms);
        };
        let declared = declare(text, &cells[..form.cells], tables);
        clear(&mut cells[..form.cells]);
        declared.map_err(|question| question.behind(forms))?;
        forms += 1;
        at = form.end;
    }
}

// The same, once the whole text was read.
fn read_and_declare(
    text: &[u8],
    cells: &mut [u32],
    tables: &mut Tables<'_>,
) -> Result<usize, Refused>
    requires legible { Legible text.now cells.old }
    requires exact { Exact (lists_of tables.old) }
    requires empty { tables.old.held ≡ no_counts }
    ensures same_tables { SameTables tables.old tables.new }
    ensures run { Run text.now (lists_of tables.new) tables.new.held (verdict text.now) result }
    ensures cells_unchanged { cells.new ≡ cells.old }
{
    read_all(text)?;
    declarations(text, cells, tables)
}

// The tables of a theory, from its text, where they have exactly the named lengths: the number of its forms. `cells` is scratch: zero before
// and after. What was declared before a refused form is in the tables then.
pub fn parse_exact(
    text: &[u8],
    cells: &mut [u32],
    tables: &mut Tables<'_>,
) -> Result<usize, Refused>
    requires legible { Legible text.now cells.old }
    requires exact { Exact (lists_of tables.old) }
    ensures same_tables { SameTables tables.old tables.new }
    ensures value { JudgedAs (verdict text.now) result }
    ensures held { tables.new.held ≡ counts_of (theory_of (verdict text.now)) }
    ensures patterns_after { lists_of tables.new ≡ theory_tables (theory_of (verdict text.now)) }
    ensures cells_unchanged { cells.new ≡ cells.old }
    ensures laid_held { LaidHeld text.now (theory_of (verdict text.now)) }
{
    tables.held = Counts::NONE;
    let result = read_and_declare(text, cells, tables);
    tables.wipe_behind();
    result
}

// The same, the tables lent one by one: a struct of parts of slices that lie in another struct is more than the check follows.
fn parse_parts(
    text: &[u8],
    cells: &mut [u32],
    sorts: &mut [u32],
    symbols: &mut [u32],
    inputs: &mut [u32],
    rules: &mut [u32],
    vars: &mut [u32],
    patterns: &mut [u32],
    held: &mut Counts,
) -> Result<usize, Refused>
    requires legible { Legible text.now cells.old }
    requires exact { Exact (theory_lists sorts.old symbols.old inputs.old rules.old vars.old patterns.old) }
    ensures value { JudgedAs (verdict text.now) result }
    ensures held { held.new ≡ counts_of (theory_of (verdict text.now)) }
    ensures patterns_after { theory_lists sorts.new symbols.new inputs.new rules.new vars.new patterns.new ≡ theory_tables (theory_of (verdict text.now)) }
    ensures cells_unchanged { cells.new ≡ cells.old }
    ensures laid_held { LaidHeld text.now (theory_of (verdict text.now)) }
{
    let mut tables = Tables {
        sorts,
        symbols,
        inputs,
        rules,
        vars,
        patterns,
        held: *held,
    };
    let result = parse_exact(text, cells, &mut tables);
    *held = tables.held;
    result
}

// The same in tables that may be longer.
pub fn parse(text: &[u8], cells: &mut [u32], tables: &mut Tables<'_>) -> Result<usize, Refused>
    requires legible { Legible text.now cells.old }
    requires roomy { Roomy (lists_of tables.old) }
    ensures same_tables { SameTables tables.old tables.new }
    ensures value { JudgedAs (verdict text.now) result }
    ensures held { tables.new.held ≡ counts_of (theory_of (verdict text.now)) }
    ensures patterns_after { lists_of tables.new ≡ laid_theory (lists_of tables.old) (theory_of (verdict text.now)) }
    ensures cells_unchanged { cells.new ≡ cells.old }
    ensures laid_held { LaidHeld text.now (theory_of (verdict text.now)) }
{
    let sorts = &mut *tables.sorts;
    let symbols = &mut *tables.symbols;
    let inputs = &mut *tables.inputs;
    let rows = &mut *tables.rules;
    let vars = &mut *tables.vars;
    let patterns = &mut *tables.patterns;
    parse_parts(
        text,
        cells,
        &mut sorts[..2 * rules::SORTS],
        &mut symbols[..4 * rules::SYMBOLS],
        &mut inputs[..rules::ARGUMENTS * rules::SYMBOLS],
        &mut rows[..6 * rules::RULES],
        &mut vars[..3 * rules::RULEVARS * rules::RULES],
        &mut patterns[..rules::PATTERNS],
        &mut tables.held,
    )
}
