// The variables of a term: recursion on falling term numbers. A shared subterm is visited once, and a term without variables never.
ghost use Rattle.std.specs.Prelude.{◌≡◌, ◌<◌, length, replicate};
ghost use Rattle.rules.specs.Limits.{VARIABLES, VARIABLEWORDS};
ghost use Rattle.rules.specs.Find.{union};
ghost use Rattle.rules.specs.Tree.{variables as variables_in};
ghost use Rattle.terms.specs.Lent.{tree_made};
ghost use Rattle.terms.specs.Sets.{holds};
ghost use Rattle.terms.specs.Collect.{ReadableIn, SeenIn, VisitedIn};

use crate::heads::Head;
use crate::sets::{has, insert};
use crate::store::Terms;
use cells::clear;
use rules::VARIABLEWORDS;

// The variables of the term `id` join the set, and its open nodes those that were visited; a term that was visited has its own there already,
// so that over many calls, too, a shared subterm is visited once.
pub fn visit(terms: &Terms<'_>, id: usize, seen: &mut [u64], set: &mut [u64])
    requires readable { ReadableIn terms.now id seen.old set.old }
    requires seen { SeenIn terms.now seen.old set.old }
    ensures { VisitedIn terms.now id seen.old set.old seen.new set.new }
{
    if !terms.is_open(id) || has(seen, id) {
        return;
    }
    let node = terms.node(id);
    if let Head::Variable(v) = Head::from(node[0]) {
        insert(set, v);
        return;
    }
    for arg in &node[1..] {
        visit(terms, *arg as usize, seen, set);
    }
    insert(seen, id);
}

// The variables of the term `id` join the set. `seen` is scratch: zero before and after.
pub fn variables(terms: &Terms<'_>, id: usize, seen: &mut [u64], set: &mut [u64])
    requires readable { ReadableIn terms.now id seen.old set.old }
    requires seen_value { seen.old ≡ replicate (length seen.old) 0 }
    ensures joined { holds set.new ≡ union (holds set.old) (variables_in (tree_made terms.now id)) }
    ensures seen_unchanged { seen.new ≡ seen.old }
{
    visit(terms, id, seen, set);
    clear(seen);
}

// Whether the variable `x` occurs in the term `id`. `seen` is scratch: zero before and after.
pub fn occurs(terms: &Terms<'_>, id: usize, x: usize, seen: &mut [u64]) -> bool
    requires readable { ReadableIn terms.now id seen.old (replicate VARIABLEWORDS 0) }
    requires seen_value { (seen.old ≡ replicate (length seen.old) 0) × (x < VARIABLES) }
    ensures occurs { result ≡ variables_in (tree_made terms.now id) x }
    ensures seen_unchanged { seen.new ≡ seen.old }
{
    let mut set = [0u64; VARIABLEWORDS];
    variables(terms, id, seen, &mut set);
    has(&set, x)
}
