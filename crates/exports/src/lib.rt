// Functions for programs in other languages, which link the static library. What one requires, its caller keeps.
#![tactic(auto)]

ghost use Rattle.std.specs.Prelude.{◌≡◌, ◌%◌, ◌≤◌, ◌<◌, eqb, length, get_or};
ghost use Rattle.rules.specs.Limits.{LENGTH};
ghost use Rattle.rules.specs.Sexp.{read};
ghost use Rattle.sexp.specs.Reads.{Clear};
ghost use Rattle.kernel.specs.Parsed.{theory_lists, Roomy, theory_of, verdict, laid_theory};
ghost use Rattle.sexp.specs.Through.{Legible};
ghost use Rattle.exports.specs.Counts.{forms_of, rules_of};

use cells::clear;
use kernel::parse::parse;
use kernel::tables::{Counts, Tables};
use rules::RULES;
use sexp::items::{Item, item_at};
use sexp::sexp::{read_all, read_form};

// The number of a text's bracketed forms before its end or a refusal, by its tokens alone.
#[unsafe(no_mangle)]
pub extern "C" fn tariff_scan(text: &[u8]) -> usize
    ensures { result ≡ forms_of (read text.now) 0 }
{
    read_all(text).unwrap_or_else(|refused| refused.form)
}

// Whether the form whose cells begin here is a list.
fn bracketed(words: &[u32]) -> bool
    requires { 0 < length words.now }
    ensures { result ≡ eqb (get_or words.now 0 0 % 2) 0 }
{
    matches!(item_at(words, 0), Item::List(_, _))
}

// The same number, by reading form after form into cells; these are zero, at least as many as bytes, and are left so.
#[unsafe(no_mangle)]
pub extern "C" fn tariff_read(text: &[u8], words: &mut [u32]) -> usize
    requires legible { Legible text.now words.old }
    ensures { (result ≡ forms_of (read text.now) 0) × (words.new ≡ words.old) }
{
    let mut at = 0;
    let mut forms = 0;
    // from form to form, which is no count; a form is read into lent cells, which no iterator could lend on
    loop {
        let Ok(Some(form)) = read_form(text, at, words) else {
            return forms;
        };
        if bracketed(words) {
            forms += 1;
        }
        clear(&mut words[..form.cells]);
        at = form.end;
    }
}

// The number of a theory's rules, with its tables laid from its text; where the text is refused, one more than there can be, and the
// tables of what stood before. `cells` are zero, at least as many as bytes, and are left so.
// C lends each table as pointer and length, so that they stand one by one.
#[unsafe(no_mangle)]
pub extern "C" fn tariff_parse(
    text: &[u8],
    cells: &mut [u32],
    sorts: &mut [u32],
    symbols: &mut [u32],
    inputs: &mut [u32],
    rules: &mut [u32],
    vars: &mut [u32],
    patterns: &mut [u32],
) -> usize
    requires legible { Legible text.now cells.old }
    requires roomy { Roomy (theory_lists sorts.old symbols.old inputs.old rules.old vars.old patterns.old) }
    ensures value { result ≡ rules_of (verdict text.now) }
    ensures patterns_after { theory_lists sorts.new symbols.new inputs.new rules.new vars.new patterns.new
        ≡ laid_theory (theory_lists sorts.old symbols.old inputs.old rules.old vars.old patterns.old) (theory_of (verdict text.now)) }
    ensures cells_unchanged { cells.new ≡ cells.old }
{
    let mut tables = Tables {
        sorts,
        symbols,
        inputs,
        rules,
        vars,
        patterns,
        held: Counts::NONE,
    };
    match parse(text, cells, &mut tables) {
        Ok(_) => tables.held.rules,
        Err(_) => RULES + 1,
    }
}
