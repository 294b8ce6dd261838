// The texts and tables of a check: what is given to it, and what it fills.
ghost use Rattle.std.specs.Prelude.{◌≡◌};
ghost use Rattle.state.specs.Boards.{goals_of};

use crate::goals::GoalTable;
use crate::sizes::Sizes;
use facts::Fact;
use kernel::rule_readers::Rules;

// The text of the theory, that of the goals, and that in which the form stands; and the tables of the theory.
#[derive(Clone, Copy)]
pub struct Given<'a> {
    pub theory: &'a [u8],
    pub goals: &'a [u8],
    pub text: &'a [u8],
    pub sorts: &'a [u32],
    pub symbols: &'a [u32],
    pub inputs: &'a [u32],
    pub rules: Rules<'a>,
}

// Variables, abbreviations, goals (`rows`), facts, the entries of lists; and how much of each table is used.
#[derive(Drop)]
pub struct Board<'a> {
    pub vars: &'a mut [u32],
    pub defs: &'a mut [u32],
    pub rows: &'a mut [u32], // of goals
    pub facts: &'a mut [Fact],
    pub lists: &'a mut [u32],
    pub n: Sizes,
}

impl Board<'_> {
    // The goals, as names are looked up in them.
    pub fn goal_table(&self) -> GoalTable<'_>
        ensures { result ≡ goals_of self.now }
    {
        GoalTable {
            rows: self.rows,
            count: self.n.goals,
        }
    }
}
