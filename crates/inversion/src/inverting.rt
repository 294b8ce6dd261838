// What is inverted, and what is carried from rule to rule.
use kernel::rule_readers::Rules;
use referring::source::Source;
use rules::{RULEVARS, VARIABLES, VARIABLEWORDS};

// The hypothesis and the judgment by their numbers, and the facts of the context; beside what all is read from.
#[derive(Clone, Copy)]
pub struct Inverting<'a> {
    pub source: Source<'a>,
    pub rules: Rules<'a>,
    pub hypothesis: usize,
    pub judgment: usize,
    pub context: &'a [u32],
}

// The variables of a rule by its number, and how many they are. No one struct with `OneRule` of derivation: with the count kept here, the contracts
// speak of the table of variables alone, and not of the rule's row as well.
#[derive(Clone, Copy)]
pub struct RuleVars<'a> {
    pub rules: Rules<'a>,
    pub rule: usize,
    pub count: usize,
}

// The variables that a case must not have, the sorts of those that were made, each at its number, and how many variables there are: an array as long as
// the sorts may be, since there is no heap, and the core stands on `std` alone, which has no vector without one.
#[derive(Drop)]
pub struct Variables {
    pub taken: [u64; VARIABLEWORDS],
    pub sorts: [u32; VARIABLES],
    pub count: usize,
}

impl Variables {
    // What is lent to be written.
    pub const NONE: Variables = Variables {
        taken: [0; VARIABLEWORDS],
        sorts: [0; VARIABLES],
        count: 0,
    };
}

// Variables that stand for those of a rule, in cells for as many as a rule can have: no heap, and the core stands on `std` alone, which has no vector
// without one. How many they are is the rule's count.
pub type RuleList = [u32; RULEVARS];

// The fact of a case, and the variables that it has for its rule's.
#[derive(Drop)]
pub struct CaseVars {
    pub fact: usize,
    pub list: RuleList,
}

// A rule by its number, the variables that stand for its own, and how many variables there are in all.
#[derive(Clone, Copy)]
pub struct Renaming<'a> {
    pub rule: usize,
    pub vars: &'a [u32],
    pub count: usize,
}
