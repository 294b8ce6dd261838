// Rules: the premises and the conclusion of a declaration, and the rows that are stored when all of it is taken.
ghost use Rattle.std.specs.Prelude.{◌≡◌, ℕ, List, length};
ghost use Rattle.rules.specs.Sexp.{Sexps, count as items};
ghost use Rattle.rules.specs.Theory.{Theory, Rule};
ghost use Rattle.rules.specs.Declare.{Reading, schema, add_rule};
ghost use Rattle.sexp.specs.Items.{Holds};
ghost use Rattle.kernel.specs.Held.{Form, SymbolsHeld, SomeSymbolsHeld};
ghost use Rattle.kernel.specs.Reading.{SameTables, Knows, ReadTo, ReadSoFar};
ghost use Rattle.kernel.specs.HeldRules.{BeginningAt, SchemaRead, SchemaPart, RulesHeld, SomeRules, RowFits, RowIs, RulePut, RuleAdded};
ghost use Rattle.kernel.specs.Lent.{BeginningIn};

use crate::atoms::put_span;
use crate::names::SymbolTable;
use crate::patterns::RuleReader;
use crate::symbols::proper_at;
use crate::tables::Counts;
use cells::{Span, write};
use questions::{Question, Row};
use sexp::items;
use sexp::names::named;

impl RuleReader<'_, '_> {
    // The words of the premises, then those of the conclusion, and the variables into an empty row: the number of premises.
    fn schema(&mut self, form: &[u32]) -> Result<usize, Question>
        requires { BeginningAt self.old form.now }
        ensures same_tables { SameTables self.old self.new }
        ensures read { (T : Theory) (R : Reading) (xs : Sexps) → Knows self.old.known T.symbols → ReadTo self.old R →
            Holds self.old.known.text.now form.now xs → 4 ≡ items xs →
            SchemaPart self.old self.new (schema T xs R) result }
    {
        let premises = items::list(form, 2).ok_or(Question::Declared)?;
        self.premises(premises)?;
        let conclusion = items::list(form, 3).ok_or(Question::Declared)?;
        self.judgment(conclusion)?;
        Ok(items::count(premises))
    }
}

// How many variables and premises a rule has, and how many words are used with its own.
#[derive(Clone, Copy)]
pub struct RuleSize {
    pub variables: usize,
    pub premises: usize,
    pub words: usize,
}

// What `schema` reads, into an empty row and behind the words of the rules before. The row is scratch and the words are the table's, so that `RuleReader` is
// the one struct that has both.
fn read_rule(
    known: &SymbolTable<'_>,
    form: &[u32],
    row: &mut [u32],
    patterns: &mut [u32],
    used: usize,
) -> Result<RuleSize, Question>
    requires { BeginningIn known.now form.now row.old (length patterns.old) used }
    ensures { (T : Theory) (R : Reading) (xs : Sexps) → Knows known.now T.symbols → ReadSoFar known.now.text.now row.old 0 used R →
        Holds known.now.text.now form.now xs → 4 ≡ items xs →
        SchemaRead known.now.text.now row.new patterns.old patterns.new used (schema T xs R) result }
{
    let mut reader = RuleReader {
        known: *known,
        vars: row,
        count: 0,
        patterns,
        used,
    };
    let premises = reader.schema(form)?;
    Ok(RuleSize {
        variables: reader.count,
        premises,
        words: reader.used,
    })
}

// What the row of a rule says: where its name stands, how many variables and premises it has, and where its words stand.
#[derive(Clone, Copy)]
pub struct RuleRow {
    pub name: Span,
    pub variables: usize,
    pub premises: usize,
    pub words: Span,
}

// Stores a rule, if there is room. The tables are lent one by one, as to `add_rule`.
fn store(
    rules: &mut [u32],
    vars: &mut [u32],
    count: usize,
    row: RuleRow,
    names: &[u32],
) -> Result<(), Row>
    requires { RowFits (length rules.old) (length vars.old) row (length names.now) }
    ensures { (text patterns : List ℕ) (rs : List Rule) (u : Rule) → RulesHeld text rules.old vars.old patterns count row.words.from rs →
        RowIs text patterns u row names.now → RulePut text rules.old vars.old rules.new vars.new patterns count row.words.end rs u result }
{
    if count >= rules::RULES {
        return Err(Row::Rules);
    }
    let at = 6 * count;
    put_span(rules, at, row.name);
    rules[at + 2] = row.variables as u32;
    rules[at + 3] = row.premises as u32;
    put_span(rules, at + 4, row.words);
    write(&mut vars[3 * rules::RULEVARS * count..], names);
    Ok(())
}

// `(rule NAME (JUDGMENT...) JUDGMENT)`, given the items of the form; `held` is there. The number of words that are used with the new rule;
// those of a rule that is refused stay behind them. The tables are lent one by one: in a struct of other tables' slices the check loses them.
pub fn add_rule(
    text: &[u8],
    form: &[u32],
    symbols: &[u32],
    inputs: &[u32],
    rules: &mut [u32],
    vars: &mut [u32],
    patterns: &mut [u32],
    held: Counts,
) -> Result<usize, Question>
    requires form { Form text.now form.now 4 }
    requires some_symbols_held { SomeSymbolsHeld text.now symbols.now inputs.now held.symbols }
    requires some_rules { SomeRules text.now rules.old vars.old patterns.old held.rules held.words }
    ensures { (T : Theory) (xs : Sexps) → SymbolsHeld text.now symbols.now inputs.now held.symbols T.symbols →
        RulesHeld text.now rules.old vars.old patterns.old held.rules held.words T.rules →
        Holds text.now form.now xs → 4 ≡ items xs →
        RuleAdded text.now rules.new vars.new patterns.new T (add_rule xs T) held.rules held.words result }
{
    let known = SymbolTable {
        text,
        rows: symbols,
        inputs,
        count: held.symbols,
    };
    // as wide as a row of the table, and zero behind what is read, since all of it is written
    let mut row = [0u32; 3 * rules::RULEVARS];
    let size = read_rule(&known, form, &mut row, patterns, held.words)?;
    let name = proper_at(text, form, 1)?;
    if named(text, rules, 6, 0, held.rules, name.of(text)).is_some() {
        return Err(Question::Declared);
    }
    let entry = RuleRow {
        name,
        variables: size.variables,
        premises: size.premises,
        words: Span {
            from: held.words,
            end: size.words,
        },
    };
    store(rules, vars, held.rules, entry, &row)?;
    Ok(size.words)
}
