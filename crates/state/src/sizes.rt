// How much of each table is used.
ghost use Rattle.std.specs.Prelude.{◌≡◌};
ghost use Rattle.state.specs.Used.{theory_sizes};

use kernel::tables::Counts;

// Sorts, symbols and rules of the theory; variables, abbreviations, goals, facts; and entries of lists.
#[derive(Clone, Copy, Debug, PartialEq, Eq)]
pub struct Sizes {
    pub sorts: usize,
    pub symbols: usize,
    pub rules: usize,
    pub vars: usize,
    pub defs: usize,
    pub goals: usize,
    pub facts: usize,
    pub entries: usize,
}

// What is used where there is nothing but a theory.
impl From<Counts> for Sizes {
    ghost from_gives = { λ held sizes. sizes ≡ theory_sizes held };

    fn from(held: Counts) -> Sizes {
        Sizes {
            sorts: held.sorts,
            symbols: held.symbols,
            rules: held.rules,
            vars: 0,
            defs: 0,
            goals: 0,
            facts: 0,
            entries: 0,
        }
    }
}
