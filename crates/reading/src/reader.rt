// What names stand for: the texts and tables from which the items of a form are read.
ghost use Rattle.std.specs.Prelude.{◌≡◌};
ghost use Rattle.reading.specs.Reader.{reader_of, symbols_of, vars_of};

use kernel::names::SymbolTable;
use state::board::{Board, Given};
use state::sizes::Sizes;
use state::vars::VarTable;

// The texts in which names stand, the tables of symbols, variables and abbreviations, and how much of each is used.
#[derive(Clone, Copy)]
pub struct Reader<'a> {
    pub theory: &'a [u8],
    pub goals: &'a [u8],
    pub text: &'a [u8],
    pub symbols: &'a [u32],
    pub inputs: &'a [u32],
    pub vars: &'a [u32],
    pub defs: &'a [u32],
    pub n: Sizes,
}

// That the tables stand for a state, and cells for its items (`ReadsItem`), stands in each contract, and no type says it: it is said of the reader, the
// store and the cells together. These are lent apart, since reading makes terms in the store and goes on in parts of the cells: a struct of the three would
// be made anew at each part, and its invariant be shown again at each term that is made.

// Those of a check. Field by field: names need five of the seven that `Given` has, and a `Given` in the reader would be one step more at each of them.
pub fn reader_of<'a>(given: &Given<'a>, board: &'a Board<'_>) -> Reader<'a>
    ensures { result ≡ reader_of given.now board.now }
{
    Reader {
        theory: given.theory,
        goals: given.goals,
        text: given.text,
        symbols: given.symbols,
        inputs: given.inputs,
        vars: board.vars,
        defs: board.defs,
        n: board.n,
    }
}

impl<'a> Reader<'a> {
    // The symbols, as names are looked up in them.
    pub fn symbol_table(&self) -> SymbolTable<'a>
        ensures { result ≡ symbols_of self.now }
    {
        SymbolTable {
            text: self.theory,
            rows: self.symbols,
            inputs: self.inputs,
            count: self.n.symbols,
        }
    }

    // The variables, as names are looked up in them.
    pub fn var_table(&self) -> VarTable<'a>
        ensures { result ≡ vars_of self.now }
    {
        VarTable {
            goals: self.goals,
            text: self.text,
            rows: self.vars,
            count: self.n.vars,
        }
    }
}
