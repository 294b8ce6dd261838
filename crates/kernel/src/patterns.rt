// The patterns of a rule: read off items in prefix notation, a word at a time, with the rule's variables numbered as they are met.
ghost use Rattle.std.specs.Prelude.{◌≡◌, List, length, drop};
ghost use Rattle.rules.specs.Text.{same};
ghost use Rattle.rules.specs.Find.{first};
ghost use Rattle.rules.specs.Lex.{letters};
ghost use Rattle.rules.specs.Sexp.{Name, atom};
ghost use Rattle.rules.specs.Declare.{Reading, met_or_new, variable, head, pattern};
ghost use Rattle.rules.specs.Laws.PatternSteps.{var_named};
ghost use Rattle.rules.specs.TheoryTables.{prefix};
ghost use Rattle.kernel.specs.Reading.{WordFits, SameTables, SameVars, SameWords, WordAdded, VarsMet, NamesMet, SomeNamesMet, MeetingAt, MetBy};
ghost use Rattle.kernel.specs.Reading.{ReadTo, AtomAt, PartRead, HeadAt, HeadBy};
ghost use Rattle.kernel.specs.Lent.{OfNames};
ghost use Rattle.kernel.specs.Spelled.{StandsAt};

use crate::atoms::{marked, put_span};
use crate::names::SymbolTable;
use cells::Span;
use questions::{Question, Row};
use sexp::lex;
use sexp::names::named;

// A rule as far as it is read: the variables that were met, and its words behind those of the rules before.
#[derive(Drop)]
pub struct RuleReader<'t, 'a> {
    pub known: SymbolTable<'t>,
    pub vars: &'a mut [u32],
    pub count: usize,
    pub patterns: &'a mut [u32],
    pub used: usize,
}

impl RuleReader<'_, '_> {
    // A word more, if there is room.
    pub fn word(&mut self, cell: usize) -> Result<(), Row>
        requires { WordFits (length self.old.patterns.now) cell }
        ensures same_tables { SameTables self.old self.new }
        ensures same_vars { SameVars self.old self.new }
        ensures put { WordAdded self.old self.new cell result }
    {
        let at = self.used;
        if at >= rules::PATTERNS {
            return Err(Row::PatternWords);
        }
        self.patterns[at] = cell as u32;
        self.used = at + 1;
        Ok(())
    }

    // The number of the variable that has these bytes for a name.
    fn numbered(&self, name: &[u8]) -> Option<usize>
        requires { SomeNamesMet self.now }
        ensures { (ns : List Name) → NamesMet self.now ns → result ≡ first (λ n. same n.bytes name.now) ns 0 }
    {
        named(self.known.text, self.vars, 3, 1, self.count, name)
    }

    // The number of a variable that was met before, with the sort it had, or of a new one.
    fn met_or_new(&mut self, name: Span, sort: usize) -> Result<usize, Question>
        requires { MeetingAt self.old name sort }
        ensures same_tables { SameTables self.old self.new }
        ensures same_words { SameWords self.old self.new }
        ensures met { (R : Reading) (n : Name) → VarsMet self.old R.vars → StandsAt self.old.known.text.now n name →
            MetBy self.old self.new R (met_or_new n sort (var_named R.vars n.bytes) R) result }
    {
        let text = self.known.text;
        let count = self.count;
        if let Some(i) = self.numbered(name.of(text)) {
            let had = self.vars[3 * i] as usize;
            if had == sort {
                return Ok(i);
            }
            return Err(Question::Signature);
        }
        if count >= rules::RULEVARS {
            return Err(Question::Room(Row::RuleVariables));
        }
        let at = 3 * count;
        self.vars[at] = sort as u32;
        put_span(self.vars, at + 1, name);
        self.count = count + 1;
        Ok(count)
    }

    // A variable of a sort, and its word, made as in `keep_var` of the crate `terms`, where a line says why there is no function for both.
    fn variable(&mut self, start: usize, sort: usize) -> Result<(), Question>
        requires { AtomAt self.old start sort }
        ensures same_tables { SameTables self.old self.new }
        ensures read { (R : Reading) → ReadTo self.old R →
            PartRead prefix self.old self.new
            (variable (record { start = start; bytes = letters (drop start self.old.known.text.now) }) sort R) result }
    {
        let name = lex::atom_span(self.known.text, start);
        if name.end - start < 2 {
            return Err(Question::Declared);
        }
        let i = self.met_or_new(name, sort)?;
        self.word(rules::SYMBOLS + i)?;
        Ok(())
    }

    // The constructor of that name, of a sort and with so many arguments, and its word.
    pub fn constructor(&mut self, name: &[u8], sort: usize, arity: usize) -> Result<usize, Question>
        requires { HeadAt self.old }
        ensures same_tables { SameTables self.old self.new }
        ensures same_vars { SameVars self.old self.new }
        ensures head { OfNames self.old.known (λ T. (R : Reading) → R.words ≡ self.old.used →
            HeadBy self.old self.new T R arity (head T sort arity name.now R) result) }
    {
        let known = self.known;
        let c = known.constructor_named(name).ok_or(Question::Declared)?;
        let output = known.output(c);
        if output != sort {
            return Err(Question::Signature);
        }
        let many = known.arity(c);
        if many != arity {
            return Err(Question::Signature);
        }
        self.word(c)?;
        Ok(c)
    }

    // A term of a sort that is an atom.
    pub fn atomic(&mut self, start: usize, sort: usize) -> Result<(), Question>
        requires atom { AtomAt self.old start sort }
        requires head { HeadAt self.old }
        ensures same_tables { SameTables self.old self.new }
        ensures read { OfNames self.old.known (λ T. (R : Reading) → ReadTo self.old R →
            PartRead prefix self.old self.new (pattern T (atom start (letters (drop start self.old.known.text.now))) sort R) result) }
    {
        let text = self.known.text;
        if marked(text, start) {
            return self.variable(start, sort);
        }
        self.constructor(lex::atom(text, start), sort, 0)?;
        Ok(())
    }
}
