// Terms and judgments of a rule: a symbol's word before its arguments' words.
ghost use Rattle.std.specs.Prelude.{◌≡◌, ◌^◌, ◌<◌, length, drop};
ghost use Rattle.rules.specs.Sexp.{Sexp, Sexps, list, cons};
ghost use Rattle.rules.specs.Theory.{Theory, inputs as inputs_of};
ghost use Rattle.rules.specs.Declare.{Reading, pattern, patterns as patterns_of, predicated};
ghost use Rattle.rules.specs.TheoryTables.{prefix, prefixes};
ghost use Rattle.sexp.specs.Items.{Holds};
ghost use Rattle.kernel.specs.Reading.{SameTables, SameVars, Knows, ReadTo, PartRead, ListOpened, OpeningAt, PartAt, Placed, ArgumentsAt};

use crate::patterns::RuleReader;
use questions::Question;
use sexp::items;
use sexp::items::Item;

impl RuleReader<'_, '_> {
    // The constructor that a list of a term begins with, and its word; a list of one is refused before its name is looked up.
    fn open_term(&mut self, cells: &[u32], sort: usize) -> Result<usize, Question>
        requires { OpeningAt self.old cells.now }
        ensures same_tables { SameTables self.old self.new }
        ensures same_vars { SameVars self.old self.new }
        ensures opened { (T : Theory) (R : Reading) (zs : Sexps) → Knows self.old.known T.symbols → R.words ≡ self.old.used →
            Holds self.old.known.text.now cells.now zs →
            ListOpened self.old self.new cells.now T R zs (pattern T (list zs) sort R) result }
    {
        let name = items::head(self.known.text, cells).ok_or(Question::Declared)?;
        let many = items::count(cells);
        if many < 2 {
            return Err(Question::Signature);
        }
        self.constructor(name, sort, many - 1)
    }

    // The predicate that a judgment begins with, and its word.
    fn open_judgment(&mut self, cells: &[u32]) -> Result<usize, Question>
        requires { OpeningAt self.old cells.now }
        ensures same_tables { SameTables self.old self.new }
        ensures same_vars { SameVars self.old self.new }
        ensures opened { (T : Theory) (R : Reading) (zs : Sexps) → Knows self.old.known T.symbols → R.words ≡ self.old.used →
            Holds self.old.known.text.now cells.now zs →
            ListOpened self.old self.new cells.now T R zs (predicated T zs R) result }
    {
        let known = self.known;
        let name = items::head(known.text, cells).ok_or(Question::Declared)?;
        let p = known.predicate_named(name).ok_or(Question::Declared)?;
        let arity = known.arity(p);
        let many = items::count(cells);
        if arity + 1 != many {
            return Err(Question::Signature);
        }
        self.word(p)?;
        Ok(p)
    }

    // The term of a sort that the first item spells. An atom is wanted by its place too, so that with `items::list` the item would be looked at twice.
    #[cycle(arguments_term)]
    fn term(&mut self, cells: &[u32], sort: usize) -> Result<(), Question>
        requires part { PartAt self.old cells.now }
        requires cells_nonzero { (0 < length cells.now) × (sort < 2 ^ 32) }
        ensures same_tables { SameTables self.old self.new }
        ensures read { (T : Theory) (R : Reading) (x : Sexp) (ys : Sexps) → Knows self.old.known T.symbols → ReadTo self.old R →
            Holds self.old.known.text.now cells.now (cons x ys) →
            PartRead prefix self.old self.new (pattern T x sort R) result }
    {
        match items::item_at(cells, 0) {
            Item::Atom(start) => self.atomic(start, sort),
            Item::List(a, b) => {
                let inner = &cells[a..b];
                let c = self.open_term(inner, sort)?;
                self.arguments(&inner[1..], c)
            }
        }
    }

    // The arguments of symbol c that the items spell; they are as many as its inputs.
    #[cycle(arguments_term)]
    fn arguments(&mut self, cells: &[u32], c: usize) -> Result<(), Question>
        requires { ArgumentsAt self.old cells.now c }
        ensures same_tables { SameTables self.old self.new }
        ensures read { (T : Theory) (R : Reading) (zs : Sexps) → Knows self.old.known T.symbols → ReadTo self.old R →
            Holds self.old.known.text.now cells.now zs → Placed T.symbols c 0 zs →
            PartRead prefixes self.old self.new (patterns_of T zs (inputs_of T c) R) result }
    {
        let known = self.known;
        for (k, item) in items::all(cells).enumerate() {
            let sort = known.input(c, k);
            self.term(item, sort)?;
        }
        Ok(())
    }

    // The judgment that the items of a list spell.
    pub fn judgment(&mut self, cells: &[u32]) -> Result<(), Question>
        requires { PartAt self.old cells.now }
        ensures same_tables { SameTables self.old self.new }
        ensures read { (T : Theory) (R : Reading) (zs : Sexps) → Knows self.old.known T.symbols → ReadTo self.old R →
            Holds self.old.known.text.now cells.now zs →
            PartRead prefix self.old self.new (predicated T zs R) result }
    {
        let p = self.open_judgment(cells)?;
        self.arguments(&cells[1..], p)
    }
}
