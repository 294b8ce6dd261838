// The limits of a check, under the names that specs/Limits.antt gives them.
#![tactic(auto)]

// question 2: the bytes of a text
pub const LENGTH: usize = 65536;
// question 5: brackets open at once
pub const DEPTH: usize = 64;
// row 1
pub const SORTS: usize = 64;
// row 2
pub const SYMBOLS: usize = 256;
// row 3: arguments of a symbol
pub const ARGUMENTS: usize = 16;
// row 4
pub const RULES: usize = 256;
// row 5: variables of a rule
pub const RULEVARS: usize = 16;
// row 6: words of all patterns
pub const PATTERNS: usize = 8192;
// row 7: variables, made ones included
pub const VARIABLES: usize = 512;
// row 8: distinct terms
pub const TERMS: usize = 4096;
// row 9: words of all terms
pub const WORDS: usize = 16384;
// row 10: abbreviations
pub const DEFS: usize = 512;
// row 11
pub const GOALS: usize = 128;
// row 12
pub const FACTS: usize = 1024;
// row 13: entries of all lists
pub const ENTRIES: usize = 16384;
// row 14: pairs waiting in one unification
pub const PAIRS: usize = 512;

// What follows from them: the words of a node, a head and its arguments; and the words of 64 bits of a set of variables, facts, rules, terms.
pub const NODE: usize = ARGUMENTS + 1;

pub const VARIABLEWORDS: usize = VARIABLES / 64;

pub const FACTWORDS: usize = FACTS / 64;

pub const RULEWORDS: usize = RULES / 64;

pub const TERMWORDS: usize = TERMS / 64;
