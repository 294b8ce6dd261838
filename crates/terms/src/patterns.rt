// Rules' patterns over the store (specs/Patterns.antt says how words stand for a pattern, and what is bound for the definition's bindings). A
// pattern is read in prefix notation from a place on, and each function finds the place behind it on the way.
ghost use Rattle.std.specs.Prelude.{◌≡◌, ◌*◌, ◌<◌, length, IsFalse};
ghost use Rattle.rules.specs.Limits.{SYMBOLS};
ghost use Rattle.terms.specs.Lent.{SameTables};
ghost use Rattle.terms.specs.Patterns.{arity, args_by_table, SkippableIn, SkippedIn, MatchableIn, AllMatchableIn, TriedIn, AllTriedIn, AllMatchedIn, BuildableIn, BuiltIn};

use crate::heads::Head;
use crate::store::{Store, Terms};
use questions::Question;
use rules::{NODE, RULEVARS};

// What a rule's variables are bound to: the numbers of terms, as the tables have them. Of `usize` it takes twice the room, and a check of a thousand
// steps some 4 % more time (timed without proof).
pub type Bound = [Option<u32>; RULEVARS];

// A term's number, and the place behind the pattern's words.
#[derive(Clone, Copy, Debug, PartialEq, Eq)]
pub struct Built {
    pub term: usize,
    pub end: usize,
}

// Patterns as they are read.
#[derive(Clone, Copy)]
pub struct Patterns<'a> {
    // the rows that say how many arguments a symbol takes
    pub symbols: &'a [u32],
    // the words of the patterns
    pub words: &'a [u32],
}

impl Patterns<'_> {
    // How many arguments the symbol takes.
    fn arity_of(&self, symbol: usize) -> usize
        requires { (length self.now.symbols.now ≡ 4 * SYMBOLS) × (symbol < SYMBOLS) }
        ensures { result ≡ arity self.now.symbols.now symbol }
    {
        self.symbols[4 * symbol + 1] as usize
    }

    // How many arguments stand behind a word: a symbol's, or none behind a variable.
    fn args_of(&self, word: u32) -> usize
        requires { length self.now.symbols.now ≡ 4 * SYMBOLS }
        ensures { result ≡ args_by_table self.now.symbols.now word }
    {
        match Head::from(word) {
            Head::Symbol(symbol) => self.arity_of(symbol),
            Head::Variable(_) => 0,
        }
    }

    // The place behind the words of n patterns.
    pub fn skip(&self, at: usize, n: usize) -> usize
        requires { SkippableIn self.now at n }
        ensures { SkippedIn self.now at n result }
    {
        let mut place = at;
        let mut left = n;
        // a work list: a word may bring patterns along
        while left != 0 {
            let args = self.args_of(self.words[place]);
            left = left - 1 + args;
            place += 1;
        }
        place
    }

    // The place behind the words of the pattern at `at`, if it meets the term `id`; if it is no match, what is bound is of no use.
    #[cycle(matching)]
    fn match_term(
        &self,
        terms: &Terms<'_>,
        bound: &mut Bound,
        at: usize,
        id: usize,
    ) -> Option<usize>
        requires { MatchableIn self.now terms.now bound.old at id }
        ensures { TriedIn self.now terms.now bound.old bound.new at id result }
    {
        match Head::from(self.words[at]) {
            Head::Variable(v) => {
                let Some(term) = bound[v] else {
                    bound[v] = Some(id as u32);
                    return Some(at + 1);
                };
                (term as usize == id).then_some(at + 1)
            }
            Head::Symbol(symbol) => {
                let node = terms.node(id);
                if node[0] as usize != symbol {
                    return None;
                }
                let args = &node[1..];
                if args.len() != self.arity_of(symbol) {
                    return None;
                }
                self.match_terms(terms, bound, at + 1, args)
            }
        }
    }

    // The place behind the words of the patterns from `at` on, if they meet the terms one by one; if they do not, what is bound is of no use.
    #[cycle(matching)]
    pub fn match_terms(
        &self,
        terms: &Terms<'_>,
        bound: &mut Bound,
        at: usize,
        ids: &[u32],
    ) -> Option<usize>
        requires { AllMatchableIn self.now terms.now bound.old at ids.now }
        ensures { AllTriedIn self.now terms.now bound.old bound.new at ids.now result }
    {
        let mut place = at;
        for id in ids {
            place = self.match_term(terms, bound, place, *id as usize)?;
        }
        Some(place)
    }

    // Patterns from `at` on against as many terms: whether all match; if not, what is bound is as it was.
    pub fn match_all(&self, terms: &Terms<'_>, bound: &mut Bound, at: usize, ids: &[u32]) -> bool
        requires { AllMatchableIn self.now terms.now bound.old at ids.now }
        ensures matched { AllMatchedIn self.now terms.now bound.old bound.new at ids.now result }
        ensures set_back { IsFalse result → bound.new ≡ bound.old }
    {
        let old = *bound;
        if self.match_terms(terms, bound, at, ids).is_some() {
            return true;
        }
        *bound = old;
        false
    }

    // The pattern at `at` under the bindings comes into the store, arguments first, if each of its variables is bound and there is room.
    pub fn build(&self, store: &mut Store<'_>, bound: &Bound, at: usize) -> Result<Built, Question>
        requires { BuildableIn self.now store.old bound.now at }
        ensures same_tables { SameTables store.old store.new }
        ensures built { BuiltIn self.now store.old store.new bound.now at result }
    {
        let word = self.words[at];
        let count = match Head::from(word) {
            Head::Variable(v) => {
                let known = bound[v].ok_or(Question::Matching)?;
                return Ok(Built {
                    term: known as usize,
                    end: at + 1,
                });
            }
            Head::Symbol(symbol) => self.arity_of(symbol),
        };
        // as long as the longest node: no heap, and the core stands on `std` alone, which has no vector without one (docs/DECISIONS.md)
        let mut node = [0u32; NODE];
        node[0] = word;
        let mut place = at + 1;
        for cell in node[1..=count].iter_mut() {
            let arg = self.build(store, bound, place)?;
            *cell = arg.term as u32;
            place = arg.end;
        }
        let len = count + 1;
        let term = store.keep(&node[..len])?;
        Ok(Built { term, end: place })
    }
}
