// The table of goals: name, judgment, entries of its list of hypotheses, whether its result has come.
ghost use Rattle.std.specs.Prelude.{◌≡◌, not, List, [], ◌∷◌, ℕ, ◌+◌, ◌*◌, ◌<◌, ◌^◌, eqb, set};
ghost use Rattle.std.proofs.lemmas.List.Edits.{sets};
ghost use Rattle.rules.specs.Store.{Made};
ghost use Rattle.rules.specs.State.{Goal, goal_named};
ghost use Rattle.state.specs.Rows.{cell, Fits4, SomeGoalsIn, GoalsIn, GoalAt, list_span};

use cells::Span;
use kernel::atoms::put_span;
use sexp::names::named;

// The goals that there are. Their names stand in the text of the goals, which is lent where a name is looked up and nowhere else.
#[derive(Clone, Copy)]
pub struct GoalTable<'a> {
    pub rows: &'a [u32],
    pub count: usize,
}

impl GoalTable<'_> {
    // The goal with these bytes for a name.
    pub fn named(&self, text: &[u8], name: &[u8]) -> Option<usize>
        requires { SomeGoalsIn text.now self.now }
        ensures { (M : Made) (gs : List Goal) → GoalsIn text.now self.now M gs → result ≡ goal_named gs name.now }
    {
        named(text, self.rows, 6, 0, self.count, name)
    }
}

// That the goal is there (`GoalAt`) stands in each contract, and no type says it: C lends the table as plain cells, and what is promised is a cell of row k
// of all of them, so that the six cells of a row in the place of table and number would have lost their row.

// The judgment of goal k.
pub fn goal_judgment(goals: &[u32], k: usize) -> usize
    requires { GoalAt goals.now k }
    ensures { result ≡ cell 6 goals.now k 2 }
{
    goals[6 * k + 2] as usize
}

// The entries of goal k's hypotheses: fields of a row that C lends. One function over a place, for facts too, would say less plainly which field it is.
pub fn goal_hyps(goals: &[u32], k: usize) -> Span
    requires { GoalAt goals.now k }
    ensures { result ≡ list_span goals.now k }
{
    let at = 6 * k;
    let from = goals[at + 3] as usize;
    Span {
        from,
        end: from + goals[at + 4] as usize,
    }
}

// Whether goal k's result has come.
pub fn is_taken(goals: &[u32], k: usize) -> bool
    requires { GoalAt goals.now k }
    ensures { result ≡ not (eqb (cell 6 goals.now k 5) 0) }
{
    goals[6 * k + 5] != 0
}

// Goal k's result has come.
pub fn take_goal(goals: &mut [u32], k: usize)
    requires { GoalAt goals.old k }
    ensures { goals.new ≡ set goals.old (6 * k + 5) 1 }
{
    goals[6 * k + 5] = 1;
}

// The row of goal k, without a result.
pub fn put_goal(goals: &mut [u32], k: usize, name: Span, judgment: usize, from: usize, hyps: usize)
    requires { GoalAt goals.old k × Fits4 name.from name.end judgment from × (hyps < 2 ^ 32) }
    ensures { goals.new ≡ sets goals.old (6 * k) (name.from ∷ name.end ∷ judgment ∷ from ∷ hyps ∷ 0 ∷ []) }
{
    let at = 6 * k;
    put_span(goals, at, name);
    goals[at + 2] = judgment as u32;
    goals[at + 3] = from as u32;
    goals[at + 4] = hyps as u32;
    goals[at + 5] = 0;
}
