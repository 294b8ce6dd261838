// The named lengths of the tables, in cells: those of the theory; those of variables, the store's two, those of abbreviations, goals, entries; the list
// of 53. And question 1, which asks that each table has its own.
ghost use Rattle.std.specs.Bool.{Decides};
ghost use Rattle.beginning.specs.Lengths.{FitsAll};

use sexp::lex::fits;

pub const SORTS: usize = 2 * rules::SORTS;

pub const SYMBOLS: usize = 4 * rules::SYMBOLS;

pub const INPUTS: usize = rules::ARGUMENTS * rules::SYMBOLS;

pub const RULES: usize = 6 * rules::RULES;

pub const RULEVARS: usize = 3 * rules::RULEVARS * rules::RULES;

pub const PATTERNS: usize = rules::PATTERNS;

pub const VARS: usize = 4 * rules::VARIABLES;

pub const INDEX: usize = 4 * rules::TERMS;

pub const WORDS: usize = rules::WORDS;

pub const DEFS: usize = 3 * rules::DEFS;

pub const ROWS: usize = 6 * rules::GOALS;

pub const LISTS: usize = rules::ENTRIES;

pub const MISSING: usize = rules::GOALS;

// How long tables are that are lent, and how many records of facts.
#[derive(Clone, Copy)]
pub struct Lengths {
    pub sorts: usize,
    pub symbols: usize,
    pub inputs: usize,
    pub rules: usize,
    pub rulevars: usize,
    pub patterns: usize,
    pub vars: usize,
    pub index: usize,
    pub words: usize,
    pub defs: usize,
    pub rows: usize,
    pub lists: usize,
    pub missing: usize,
    pub facts: usize,
}

impl Lengths {
    // Question 1.
    pub fn fit(&self) -> bool
        ensures { Decides result (FitsAll self.now) }
    {
        fits(self.sorts, SORTS)
            && fits(self.symbols, SYMBOLS)
            && fits(self.inputs, INPUTS)
            && fits(self.rules, RULES)
            && fits(self.rulevars, RULEVARS)
            && fits(self.patterns, PATTERNS)
            && fits(self.vars, VARS)
            && fits(self.index, INDEX)
            && fits(self.words, WORDS)
            && fits(self.defs, DEFS)
            && fits(self.rows, ROWS)
            && fits(self.lists, LISTS)
            && fits(self.missing, MISSING)
            && fits(self.facts, rules::FACTS)
    }
}
