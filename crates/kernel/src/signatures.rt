// Constructors and predicates: the argument sorts of a declaration, gathered in a row of their own, and the rows that are stored.
ghost use Rattle.std.specs.Prelude.{◌≡◌, ℕ, ◌+◌, ◌*◌, ◌≤◌, ◌<◌, List, length};
ghost use Rattle.rules.specs.Limits.{ARGUMENTS};
ghost use Rattle.std.proofs.Math.Seq.{paste};
ghost use Rattle.rules.specs.Sexp.{Sexps, item, count as items};
ghost use Rattle.rules.specs.Theory.{Theory, Symbol};
ghost use Rattle.rules.specs.Declare.{sorts as argument_sorts, add_symbol, add_ctor, add_pred};
ghost use Rattle.rules.specs.Laws.Declaring.{arguments_of};
ghost use Rattle.sexp.specs.Items.{Holds};
ghost use Rattle.kernel.specs.Spelled.{Reaching};
ghost use Rattle.kernel.specs.Lent.{SortsIn, SomeSortsIn, GatheringIn};
ghost use Rattle.kernel.specs.Held.{Form, ArgumentsRead};
ghost use Rattle.kernel.specs.Tables.{SameTables, OnlySymbols, Holding, HoldingSorts, HoldingSomeSorts, HoldingSymbols, HoldingSomeSymbols};
ghost use Rattle.kernel.specs.Tables.{SymbolAdded, Leaving, FitsIn, SymbolAs};

use crate::atoms::put_span;
use crate::names::{Kind, SortTable};
use crate::symbols::proper_at;
use crate::tables::Tables;
use cells::{Span, write};
use questions::{Question, Row};
use sexp::items;

// The sorts that the items name, into an empty row: how many.
fn argument_sorts(sorts: &SortTable<'_>, cells: &[u32], row: &mut [u32]) -> Result<usize, Question>
    requires { GatheringIn sorts.now cells.now (length row.old) }
    ensures { (T : Theory) (xs : Sexps) → SortsIn sorts.now T.sorts → Holds sorts.now.text.now cells.now xs →
        ArgumentsRead row.old row.new 0 (argument_sorts T xs 0 tt) result }
{
    for (k, item) in items::all(cells).enumerate() {
        let s = sorts.sort(items::item_at(item, 0))?;
        if k >= rules::ARGUMENTS {
            return Err(Question::Room(Row::Arguments));
        }
        row[k] = s as u32;
    }
    Ok(items::count(cells))
}

// The sorts that the items of a declaration's third item name, into an empty row. `declare` cuts a list and hands it on too; one function for both would be
// handed what is asked and promised of each, to share these two lines.
fn arguments_at(sorts: &SortTable<'_>, form: &[u32], row: &mut [u32]) -> Result<usize, Question>
    requires reaching { Reaching sorts.now.text.now form.now 2 }
    requires some_sorts { SomeSortsIn sorts.now }
    requires row_len { length row.old ≡ ARGUMENTS }
    ensures { (T : Theory) (xs : Sexps) → SortsIn sorts.now T.sorts → Holds sorts.now.text.now form.now xs → 2 < items xs →
        ArgumentsRead row.old row.new 0 (arguments_of T (item xs 2)) result }
{
    let arguments = items::list(form, 2).ok_or(Question::Declared)?;
    argument_sorts(sorts, arguments, row)
}

// Stores a symbol, if there is room. Whether its name is free is asked by `add_ctor` and `add_pred`: in here it would take the text and the kind too, and the
// contract would have to say for each kind how the definition's `add_ctor` or `add_pred` ends, to share five lines.
fn store(
    tables: &mut Tables<'_>,
    output: usize,
    arity: usize,
    name: Span,
    row: &[u32],
) -> Result<(), Question>
    requires { FitsIn tables.old output arity name (length row.now) }
    ensures same_tables { SameTables tables.old tables.new }
    ensures others { OnlySymbols tables.old tables.new }
    ensures added { (text : List ℕ) (T : Theory) (s : Symbol) → HoldingSymbols text tables.old T.symbols →
        SymbolAs text s output arity name row.now → SymbolAdded text tables.old tables.new T (add_symbol s T) result }
    ensures declared { (text : List ℕ) (T : Theory) (s : Symbol) → Holding text tables.old T →
        SymbolAs text s output arity name row.now → Leaving text tables.new T (add_symbol s T) result }
{
    let count = tables.held.symbols;
    if count >= rules::SYMBOLS {
        return Err(Question::Room(Row::Symbols));
    }
    let at = 4 * count;
    tables.symbols[at] = output as u32;
    tables.symbols[at + 1] = arity as u32;
    put_span(tables.symbols, at + 2, name);
    write(&mut tables.inputs[rules::ARGUMENTS * count..], row);
    tables.held.symbols = count + 1;
    Ok(())
}

// `(ctor NAME (SORT...) SORT)`, given the items of the form. Not one function with `add_pred`: the sort is asked between the arguments and the
// name; one function would take it as an option.
pub fn add_ctor(text: &[u8], form: &[u32], tables: &mut Tables<'_>) -> Result<(), Question>
    requires form { Form text.now form.now 4 }
    requires some_sorts { HoldingSomeSorts text.now tables.old }
    requires some_symbols_held { HoldingSomeSymbols text.now tables.old }
    ensures same_tables { SameTables tables.old tables.new }
    ensures others { OnlySymbols tables.old tables.new }
    ensures added { (T : Theory) (xs : Sexps) → HoldingSorts text.now tables.old T.sorts → HoldingSymbols text.now tables.old T.symbols →
        Holds text.now form.now xs → 4 ≡ items xs → SymbolAdded text.now tables.old tables.new T (add_ctor xs T) result }
    ensures declared { (T : Theory) (xs : Sexps) → Holding text.now tables.old T → Holds text.now form.now xs → 4 ≡ items xs →
        Leaving text.now tables.new T (add_ctor xs T) result }
{
    let name = proper_at(text, form, 1)?;
    // as wide as a row of the table, and zero behind what is read, since `store` writes all of it
    let mut row = [0u32; rules::ARGUMENTS];
    let sorts = tables.sort_table(text);
    let arity = arguments_at(&sorts, form, &mut row)?;
    let result = items::nth(form, 3);
    let output = sorts.sort(result)?;
    let known = tables.known(text);
    let bytes = name.of(text);
    if known.named(Kind::Constructor, bytes).is_some() {
        return Err(Question::Declared);
    }
    store(tables, output, arity, name, &row)
}

// `(pred NAME (SORT...))`, given the items of the form.
pub fn add_pred(text: &[u8], form: &[u32], tables: &mut Tables<'_>) -> Result<(), Question>
    requires form { Form text.now form.now 3 }
    requires some_sorts { HoldingSomeSorts text.now tables.old }
    requires some_symbols_held { HoldingSomeSymbols text.now tables.old }
    ensures same_tables { SameTables tables.old tables.new }
    ensures others { OnlySymbols tables.old tables.new }
    ensures added { (T : Theory) (xs : Sexps) → HoldingSorts text.now tables.old T.sorts → HoldingSymbols text.now tables.old T.symbols →
        Holds text.now form.now xs → 3 ≡ items xs → SymbolAdded text.now tables.old tables.new T (add_pred xs T) result }
    ensures declared { (T : Theory) (xs : Sexps) → Holding text.now tables.old T → Holds text.now form.now xs → 3 ≡ items xs →
        Leaving text.now tables.new T (add_pred xs T) result }
{
    let name = proper_at(text, form, 1)?;
    // as wide as a row of the table, and zero behind what is read, since `store` writes all of it
    let mut row = [0u32; rules::ARGUMENTS];
    let sorts = tables.sort_table(text);
    let arity = arguments_at(&sorts, form, &mut row)?;
    let known = tables.known(text);
    let bytes = name.of(text);
    if known.named(Kind::Predicate, bytes).is_some() {
        return Err(Question::Declared);
    }
    store(tables, 0, arity, name, &row)
}
