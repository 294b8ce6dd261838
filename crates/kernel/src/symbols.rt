// Names that a declaration may give, the sort that an item names, and the declaration of a sort.
ghost use Rattle.std.specs.Prelude.{◌≡◌, ℕ, List, ok_or};
ghost use Rattle.questions.specs.declared.Question.TheVariants.{Declared};
ghost use Rattle.rules.specs.Sexp.{Sexp, Sexps, Name, marked, item};
ghost use Rattle.rules.specs.Theory.{Theory};
ghost use Rattle.rules.specs.Declare.{add_sort};
ghost use Rattle.sexp.specs.Spelt.{Spelt};
ghost use Rattle.sexp.specs.Items.{item_of, Holds};
ghost use Rattle.rules.specs.Laws.Declaring.{proper, sort_of};
ghost use Rattle.kernel.specs.Spelled.{Reaching, name_of};
ghost use Rattle.sexp.specs.FirstItem.{SomeItem};
ghost use Rattle.sexp.specs.NameRows.{NameRows, SomeNames};
ghost use Rattle.kernel.specs.Held.{Form};
ghost use Rattle.kernel.specs.Tables.{SameTables, OnlySorts, Holding, HoldingSorts, HoldingSomeSorts, SortAdded, Leaving};

use crate::atoms::{marked, put_span};
use crate::names::SortTable;
use crate::tables::Tables;
use cells::Span;
use questions::{Question, Row};
use sexp::items::Item;
use sexp::names::named;
use sexp::{items, lex};

// Question 11, `name`: an atom that does not start with `?`, by its place in the text.
pub fn proper(text: &[u8], item: Item) -> Result<Span, Question>
    requires { SomeItem text.now item }
    ensures { (x : Sexp) (at : ℕ) → item ≡ item_of at x → Spelt text.now x → result ≡ name_of (proper x) }
{
    let Item::Atom(start) = item else {
        return Err(Question::Declared);
    };
    if marked(text, start) {
        return Err(Question::Declared);
    }
    Ok(lex::atom_span(text, start))
}

// The same of the item with that number.
pub fn proper_at(text: &[u8], form: &[u32], number: usize) -> Result<Span, Question>
    requires { Reaching text.now form.now number }
    ensures { (xs : Sexps) → Holds text.now form.now xs → result ≡ name_of (proper (item xs number)) }
{
    let item = items::nth(form, number);
    proper(text, item)
}

impl SortTable<'_> {
    // The number of the sort that an item of the text names, from 1 on. Of the rows it asks their names alone, where `named` asks for a whole table of sorts.
    pub fn sort(&self, item: Item) -> Result<usize, Question>
        requires some_item { SomeItem self.now.text.now item }
        requires some_names { SomeNames self.now.text.now self.now.rows.now 2 0 self.now.count }
        ensures { (x : Sexp) (at : ℕ) → item ≡ item_of at x → Spelt self.now.text.now x →
            (ns : List Name) → NameRows self.now.text.now self.now.rows.now 2 0 self.now.count ns → result ≡ ok_or (sort_of ns x) Declared }
    {
        let name = proper(self.text, item)?;
        let bytes = name.of(self.text);
        let found = named(self.text, self.rows, 2, 0, self.count, bytes);
        found.map(|i| i + 1).ok_or(Question::Declared)
    }
}

// `(sort NAME)`, given the items of the form.
pub fn add_sort(text: &[u8], form: &[u32], tables: &mut Tables<'_>) -> Result<(), Question>
    requires form { Form text.now form.now 2 }
    requires some_sorts { HoldingSomeSorts text.now tables.old }
    ensures same_tables { SameTables tables.old tables.new }
    ensures others { OnlySorts tables.old tables.new }
    ensures added { (T : Theory) (xs : Sexps) → HoldingSorts text.now tables.old T.sorts → Holds text.now form.now xs →
        SortAdded text.now tables.old tables.new T (add_sort xs T) result }
    ensures declared { (T : Theory) (xs : Sexps) → Holding text.now tables.old T → Holds text.now form.now xs →
        Leaving text.now tables.new T (add_sort xs T) result }
{
    let name = proper_at(text, form, 1)?;
    let sorts = tables.sort_table(text);
    let bytes = name.of(text);
    if sorts.named(bytes).is_some() {
        return Err(Question::Declared);
    }
    let count = tables.held.sorts;
    if count >= rules::SORTS {
        return Err(Question::Room(Row::Sorts));
    }
    put_span(tables.sorts, 2 * count, name);
    tables.held.sorts = count + 1;
    Ok(())
}
