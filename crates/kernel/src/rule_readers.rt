// Reading the tables of rules: a rule's name, variables, premises and words by its number, its number and that of a variable by name, and
// the rules of a predicate one after the other.
ghost use Rattle.std.specs.Prelude.{◌≡◌, ℕ, ◌<◌, List, length, get_or};
ghost use Rattle.rules.specs.Text.{same};
ghost use Rattle.rules.specs.Find.{first};
ghost use Rattle.rules.specs.Tree.{count_trees};
ghost use Rattle.rules.specs.Theory.{Theory, rule, rule_named, head_is};
ghost use Rattle.rules.specs.Declare.{no_rule_var};
ghost use Rattle.kernel.specs.Spelled.{StandsAt};
ghost use Rattle.kernel.specs.HeldRules.{RulesHeld};
ghost use Rattle.kernel.specs.Readers.{KnownRule, KnownVar, NamedRules, NamedVars, WordsAt, conclusion_at};
ghost use Rattle.kernel.specs.Lent.{OfRule, OfRuleVars, FormedIn, SomeFormedIn, FormedAt};
ghost use Rattle.kernel.specs.Listing.{next_rule};

use cells::{Span, span_at};
use sexp::names::named;
use terms::patterns::Patterns;

// The rows of rules, their variables, the words of their patterns. The symbols, the theory's text and the number of rules are handed to the methods that need
// them: who calls these reads names too, by a `Reader` that has all three, and if they stood here as well, `step` and `invert` would have to ask that
// both are the same. That rules and symbols fit (`FormedIn`) is no invariant either: whoever makes the struct of lent tables asks nothing.
#[derive(Clone, Copy)]
pub struct Rules<'a> {
    pub rows: &'a [u32],
    pub vars: &'a [u32],
    pub patterns: &'a [u32],
}

impl<'a> Rules<'a> {
    // The patterns, over the symbols' rows.
    pub fn patterns(&self, symbols: &'a [u32]) -> Patterns<'a>
        ensures { result ≡ record { symbols = symbols.entry; words = self.now.patterns } }
    {
        Patterns {
            symbols,
            words: self.patterns,
        }
    }

    // The rule with these bytes for a name; `count` is how many there are.
    pub fn rule_named(&self, text: &[u8], count: usize, name: &[u8]) -> Option<usize>
        requires { NamedRules text.now self.now.rows.now count }
        ensures { (T : Theory) (vars patterns : List ℕ) (words : ℕ) → RulesHeld text.now self.now.rows.now vars patterns count words T.rules →
            result ≡ rule_named T name.now }
    {
        named(text, self.rows, 6, 0, count, name)
    }

    // Where the name of rule r stands in the text.
    pub fn rule_name(&self, r: usize) -> Span
        requires { KnownRule self.now.rows.now r }
        ensures { OfRule self.now r (λ T text patterns. StandsAt text (rule T r).name result) }
    {
        span_at(self.rows, 6 * r)
    }

    // How many variables rule r has.
    pub fn variables(&self, r: usize) -> usize
        requires { KnownRule self.now.rows.now r }
        ensures { OfRule self.now r (λ T text patterns. result ≡ length (rule T r).vars) }
    {
        self.rows[6 * r + 2] as usize
    }

    // How many premises rule r has.
    pub fn premises(&self, r: usize) -> usize
        requires { KnownRule self.now.rows.now r }
        ensures { OfRule self.now r (λ T text patterns. result ≡ count_trees (rule T r).premises) }
    {
        self.rows[6 * r + 3] as usize
    }

    // The words of rule r: its premises in order, then its conclusion.
    pub fn words(&self, r: usize) -> Span
        requires { KnownRule self.now.rows.now r }
        ensures { OfRule self.now r (λ T text patterns. WordsAt patterns T r result) }
    {
        span_at(self.rows, 6 * r + 4)
    }

    // The sort of variable i of rule r.
    pub fn variable_sort(&self, r: usize, i: usize) -> usize
        requires { KnownVar self.now.vars.now r i }
        ensures { OfRuleVars self.now r (λ T. i < length (rule T r).vars → result ≡ (get_or (rule T r).vars i no_rule_var).sort) }
    {
        self.vars[3 * (rules::RULEVARS * r + i)] as usize
    }

    // The variable of rule r with these bytes for a name; `count` is how many it has. Were it read off the rows here (`variables`), this would ask more than
    // it does: that the rows are those of the theory whose variables these are.
    pub fn rule_var_named(&self, text: &[u8], r: usize, count: usize, name: &[u8]) -> Option<usize>
        requires { NamedVars text.now self.now.vars.now r count }
        ensures { (T : Theory) (rules patterns : List ℕ) (known words : ℕ) → RulesHeld text.now rules self.now.vars.now patterns known words T.rules →
            r < known → count ≡ length (rule T r).vars → result ≡ first (λ v. same v.name.bytes name.now) (rule T r).vars 0 }
    {
        named(text, self.vars, 3, 3 * rules::RULEVARS * r + 1, count, name)
    }

    // The place of the first word of the conclusion of rule r: behind the words of its premises.
    pub fn conclusion(&self, symbols: &[u32], r: usize) -> usize
        requires { FormedAt symbols.now self.now r }
        ensures { (T : Theory) (count : ℕ) → FormedIn symbols.now self.now count T → r < count →
            result ≡ conclusion_at T r }
    {
        self.patterns(symbols)
            .skip(self.words(r).from, self.premises(r))
    }

    // Whether the conclusion of rule r is of that predicate.
    pub fn concludes(&self, symbols: &[u32], r: usize, predicate: usize) -> bool
        requires { FormedAt symbols.now self.now r }
        ensures { (T : Theory) (count : ℕ) → FormedIn symbols.now self.now count T → r < count →
            result ≡ head_is predicate (rule T r).conclusion }
    {
        let place = self.conclusion(symbols, r);
        predicate == self.patterns[place] as usize
    }

    // The first rule of that predicate whose number is `from` or greater; `count` is how many there are. Who goes over all of them asks `concludes` of
    // each number, so that nothing here calls it: public and promised.
    pub fn next_rule(
        &self,
        symbols: &[u32],
        count: usize,
        predicate: usize,
        from: usize,
    ) -> Option<usize>
        requires { SomeFormedIn symbols.now self.now count }
        ensures { (T : Theory) → FormedIn symbols.now self.now count T → result ≡ next_rule T predicate from }
    {
        (from..count).find(|i| self.concludes(symbols, *i, predicate))
    }
}
