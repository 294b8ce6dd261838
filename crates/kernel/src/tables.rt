// The tables of a theory, lent together with what is used of them.
ghost use Rattle.std.specs.Prelude.{◌≡◌, ◌≤◌, length};
ghost use Rattle.kernel.specs.Parsed.{CountsFit, zero_from, wiped};
ghost use Rattle.kernel.specs.Tables.{lists_of, sorts_of, known_of, SameTables};

use crate::names::{SortTable, SymbolTable};
use cells::clear;

// What is used: sorts, symbols, rules, and words of the rules' patterns (a check's counts are those of `counts`).
#[derive(Clone, Copy, Debug, PartialEq, Eq)]
pub struct Counts {
    pub sorts: usize,
    pub symbols: usize,
    pub rules: usize,
    pub words: usize,
}

impl Counts {
    pub const NONE: Counts = Counts {
        sorts: 0,
        symbols: 0,
        rules: 0,
        words: 0,
    };
}

// The six tables. One that is only read is taken as `&mut *` of its field, so that what it holds stays known.
#[derive(Drop)]
pub struct Tables<'a> {
    pub sorts: &'a mut [u32],
    pub symbols: &'a mut [u32],
    pub inputs: &'a mut [u32],
    pub rules: &'a mut [u32],
    pub vars: &'a mut [u32],
    pub patterns: &'a mut [u32],
    pub held: Counts,
}

impl Tables<'_> {
    // The sorts, with names in that text, to be read.
    pub fn sort_table<'t>(&'t self, text: &'t [u8]) -> SortTable<'t>
        ensures { result ≡ sorts_of text.entry self.now }
    {
        SortTable {
            text,
            rows: self.sorts,
            count: self.held.sorts,
        }
    }

    // The symbols, with names in that text, to be read.
    pub fn known<'t>(&'t self, text: &'t [u8]) -> SymbolTable<'t>
        ensures { result ≡ known_of text.entry self.now }
    {
        SymbolTable {
            text,
            rows: self.symbols,
            inputs: self.inputs,
            count: self.held.symbols,
        }
    }

    // Sets the cells behind what is used to zero.
    pub fn wipe_behind(&mut self)
        requires { CountsFit (lists_of self.old) self.old.held }
        ensures same_tables { SameTables self.old self.new }
        ensures held_unchanged { self.new.held ≡ self.old.held }
        ensures wiped { lists_of self.new ≡ wiped (lists_of self.old) self.old.held }
    {
        let held = self.held;
        clear(&mut self.sorts[2 * held.sorts..]);
        clear(&mut self.symbols[4 * held.symbols..]);
        clear(&mut self.inputs[rules::ARGUMENTS * held.symbols..]);
        clear(&mut self.rules[6 * held.rules..]);
        clear(&mut self.vars[3 * rules::RULEVARS * held.rules..]);
        clear(&mut self.patterns[held.words..]);
    }
}
