// Looking names up: the sort, the first predicate or the first constructor whose name has given bytes.
ghost use Rattle.std.specs.Prelude.{◌≡◌, List};
ghost use Rattle.rules.specs.Text.{same};
ghost use Rattle.rules.specs.Find.{first};
ghost use Rattle.rules.specs.Theory.{Theory, Symbol, sort_named, constructor_named, predicate_named};
ghost use Rattle.kernel.specs.Lent.{SortsIn, SomeSortsIn, NamedIn, OfNames};
ghost use Rattle.kernel.specs.Named.{SymbolAt, SomeSymbol, SymbolRows, SomeSymbols, kind_of, called};

use cells::span_at;
use sexp::names::{named, same};

// What a symbol is, by whether it has an output.
#[derive(Clone, Copy, Debug, PartialEq, Eq)]
pub enum Kind {
    Constructor,
    Predicate,
}

impl Kind {
    // Whether a symbol with that output is of the kind: a predicate has no output.
    fn has(self, output: u32) -> bool
        ensures { result ≡ kind_of self output }
    {
        match self {
            Kind::Constructor => output != 0,
            Kind::Predicate => output == 0,
        }
    }
}

// The sorts that are declared, and the text that spells their names.
#[derive(Clone, Copy)]
pub struct SortTable<'a> {
    pub text: &'a [u8],
    pub rows: &'a [u32],
    pub count: usize,
}

impl SortTable<'_> {
    // The sort with these bytes for a name; sorts are numbered from 1.
    pub fn named(&self, name: &[u8]) -> Option<usize>
        requires { SomeSortsIn self.now }
        ensures { (T : Theory) → SortsIn self.now T.sorts → result ≡ sort_named T name.now }
    {
        named(self.text, self.rows, 2, 0, self.count, name).map(|i| i + 1)
    }
}

// The symbols that are declared, and the text that spells their names. That the rows hold symbols (`NamedSymbols`) is no invariant: `known` and
// `symbol_table`, which make the struct and ask nothing, would have to ask it.
#[derive(Clone, Copy)]
pub struct SymbolTable<'a> {
    pub text: &'a [u8],
    pub rows: &'a [u32],
    pub inputs: &'a [u32],
    pub count: usize,
}

impl SymbolTable<'_> {
    // Whether the symbol of a row is of the kind and has these bytes for a name.
    fn is_symbol(&self, row: usize, kind: Kind, name: &[u8]) -> bool
        requires { SomeSymbol self.now.text.now self.now.rows.now row }
        ensures { (s : Symbol) → SymbolAt self.now.text.now self.now.rows.now row s → result ≡ called kind name.now s }
    {
        let first = 4 * row;
        kind.has(self.rows[first]) && same(span_at(self.rows, first + 2).of(self.text), name)
    }

    // The number of the first symbol of the kind whose name has these bytes.
    pub fn named(&self, kind: Kind, name: &[u8]) -> Option<usize>
        requires { SomeSymbols self.now.text.now self.now.rows.now self.now.count }
        ensures { (ss : List Symbol) → SymbolRows self.now.text.now self.now.rows.now self.now.count ss →
            result ≡ first (called kind name.now) ss 0 }
    {
        (0..self.count).find(|i| self.is_symbol(*i, kind, name))
    }

    // The constructor with these bytes for a name.
    pub fn constructor_named(&self, name: &[u8]) -> Option<usize>
        requires { NamedIn self.now }
        ensures { OfNames self.now (λ T. result ≡ constructor_named T name.now) }
    {
        self.named(Kind::Constructor, name)
    }

    // The predicate with these bytes for a name.
    pub fn predicate_named(&self, name: &[u8]) -> Option<usize>
        requires { NamedIn self.now }
        ensures { OfNames self.now (λ T. result ≡ predicate_named T name.now) }
    {
        self.named(Kind::Predicate, name)
    }
}
