// One declaration: its tag says which of the four it is.
ghost use Rattle.std.specs.Prelude.{◌≡◌};
ghost use Rattle.rules.specs.Sexp.{Sexp, Sexps, count};
ghost use Rattle.rules.specs.Theory.{Theory};
ghost use Rattle.rules.specs.Declare.{declare, add_rule};
ghost use Rattle.sexp.specs.Items.{Held, Holds};
ghost use Rattle.sexp.specs.TagTable.{declaration_answer};
ghost use Rattle.kernel.specs.Parsed.{Formed, Declaring, tagged, ItemsDeclaring, taken};
ghost use Rattle.kernel.specs.Held.{Form};
ghost use Rattle.kernel.specs.Tables.{lists_of, SameTables, Holding, HoldingSome, Leaving};

use crate::rule::add_rule;
use crate::signatures::{add_ctor, add_pred};
use crate::symbols::add_sort;
use crate::tables::{Counts, Tables};
use questions::Question;
use sexp::items;
use sexp::tags::{Declaration, theory_tag};

// The tag of a form, by its items. `tag_of_goal` and `tag_of` of `taking` are the same two lines over tables of their own; the line there says why they are no
// one function.
fn tag_of(text: &[u8], items: &[u32]) -> Option<Declaration>
    requires { Held text.now items.now }
    ensures { (xs : Sexps) → Holds text.now items.now xs → result ≡ declaration_answer (tagged xs) }
{
    let name = items::head(text, items)?;
    theory_tag(name, items::count(items))
}

// A rule, as its items declare it.
fn declare_rule(text: &[u8], items: &[u32], tables: &mut Tables<'_>) -> Result<(), Question>
    requires form { Form text.now items.now 4 }
    requires held { HoldingSome text.now tables.old }
    ensures same_tables { SameTables tables.old tables.new }
    ensures declared { (T : Theory) (xs : Sexps) → Holding text.now tables.old T → Holds text.now items.now xs →
        4 ≡ count xs → Leaving text.now tables.new T (add_rule xs T) result }
{
    let held = tables.held;
    let symbols = &mut *tables.symbols;
    let inputs = &mut *tables.inputs;
    let rules = &mut *tables.rules;
    let vars = &mut *tables.vars;
    let patterns = &mut *tables.patterns;
    let words = add_rule(text, items, symbols, inputs, rules, vars, patterns, held)?;
    tables.held = Counts {
        rules: held.rules + 1,
        words,
        ..held
    };
    Ok(())
}

// The declaration that has these items.
fn declare_items(text: &[u8], items: &[u32], tables: &mut Tables<'_>) -> Result<(), Question>
    requires { ItemsDeclaring text.now items.now (lists_of tables.old) tables.old.held }
    ensures same_tables { SameTables tables.old tables.new }
    ensures declared { (T : Theory) (xs : Sexps) → Holding text.now tables.old T → Holds text.now items.now xs →
        Leaving text.now tables.new T (taken (tagged xs) xs T) result }
{
    let tag = tag_of(text, items).ok_or(Question::Declaration)?;
    match tag {
        Declaration::Sort => add_sort(text, items, tables),
        Declaration::Ctor => add_ctor(text, items, tables),
        Declaration::Pred => add_pred(text, items, tables),
        Declaration::Rule => declare_rule(text, items, tables),
    }
}

// The declaration whose cells these are; where it is refused, the tables hold what they held. `text` and `tables` go from here through six functions: a struct
// of both would save a word in each call and cost one in each clause, most of which speak of the text alone or of the tables before and after.
pub fn declare(text: &[u8], cells: &[u32], tables: &mut Tables<'_>) -> Result<(), Question>
    requires { Declaring text.now cells.now (lists_of tables.old) tables.old.held }
    ensures same_tables { SameTables tables.old tables.new }
    ensures declared { (T : Theory) (x : Sexp) → Holding text.now tables.old T → Formed text.now cells.now x →
        Leaving text.now tables.new T (declare x T) result }
{
    let inner = items::list(cells, 0).ok_or(Question::Declaration)?;
    declare_items(text, inner, tables)
}
