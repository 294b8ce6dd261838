// Pairs are taken, the last one first, until one binds a variable. Both sides come into the store under the bindings so far; a memo keeps
// the results, which hold as long as the bindings do.
ghost use Rattle.std.specs.Prelude.{◌≡◌, ◌<◌};
ghost use Rattle.rules.specs.Unify.{look};
ghost use Rattle.terms.specs.Lent.{SameTables, tree_made};
ghost use Rattle.unification.specs.Unify.{SameCells, KeptButPairs, KeptButMemoAndPairs};
ghost use Rattle.unification.specs.Peel.{SideableIn, SidedIn, LookableIn, LookedIn, PeelableIn, TurnedIn, peels_in, PeeledIn};

use crate::pairs::{Asks, compare};
use crate::unify::Scratch;
use questions::Row;
use rules::PAIRS;
use terms::replace::replace;
use terms::store::{Store, Terms};

// What comes of a pair, or of all that wait: all is done, but for the pairs that wait; no unifier exists; or a variable is bound to a term. Its two
// fields are named here as in `Asks`: a struct for them would be one name more at each place that takes it apart.
#[derive(Clone, Copy, Debug, PartialEq, Eq)]
pub enum Step {
    Done,
    Clash,
    Binds { variable: usize, term: usize },
}

// The terms `s` and `t` under the bindings, one after the other.
fn both_under(
    store: &mut Store<'_>,
    theta: &[u32],
    memo: &mut [u32],
    s: usize,
    t: usize,
) -> Result<(usize, usize), Row>
    requires { SideableIn store.old theta.now memo.old s t }
    ensures same_tables { SameTables store.old store.new }
    ensures sided { SidedIn store.old store.new theta.now memo.new s t result }
{
    let left = replace(store, theta, memo, s)?;
    let right = replace(store, theta, memo, t)?;
    Ok((left, right))
}

// What the terms `s` and `t` ask for is done. `seen` of the scratch is zero before and after.
fn onward(terms: &Terms<'_>, s: usize, t: usize, scratch: &mut Scratch<'_>) -> Result<Step, Row>
    requires { LookableIn terms.now scratch.old s t }
    ensures same_cells { SameCells scratch.old scratch.new }
    ensures looked { LookedIn terms.now scratch.old scratch.new (look (tree_made terms.now s) (tree_made terms.now t)) result }
    ensures unchanged { KeptButPairs scratch.old scratch.new }
{
    match compare(terms, s, t, scratch.seen) {
        Asks::Nothing => Ok(Step::Done),
        Asks::Clash => Ok(Step::Clash),
        Asks::Binds { variable, term } => Ok(Step::Binds { variable, term }),
        Asks::Parts { left, right } => {
            if PAIRS < scratch.waiting + left.len() {
                return Err(Row::Pairs);
            }
            scratch.push(left, right);
            Ok(Step::Done)
        }
    }
}

// The last of the pairs is taken.
fn take_pair(store: &mut Store<'_>, theta: &[u32], scratch: &mut Scratch<'_>) -> Result<Step, Row>
    requires { PeelableIn store.old scratch.old theta.now × (0 < scratch.old.waiting) }
    ensures same_tables { SameTables store.old store.new }
    ensures same_cells { SameCells scratch.old scratch.new }
    ensures turned { TurnedIn store.old store.new scratch.old scratch.new theta.now result }
    ensures unchanged { KeptButMemoAndPairs scratch.old scratch.new }
{
    scratch.waiting -= 1;
    let at = 2 * scratch.waiting;
    let s = scratch.pairs[at] as usize;
    let t = scratch.pairs[at + 1] as usize;
    let (left, right) = both_under(store, theta, scratch.memo, s, t)?;
    onward(&store.terms(), left, right, scratch)
}

// Pairs are taken until one binds a variable, or none is left.
pub fn peel(store: &mut Store<'_>, theta: &[u32], scratch: &mut Scratch<'_>) -> Result<Step, Row>
    requires { PeelableIn store.old scratch.old theta.now }
    ensures same_tables { SameTables store.old store.new }
    ensures same_cells { SameCells scratch.old scratch.new }
    ensures peeled_as { PeeledIn store.old store.new scratch.new (peels_in store.old scratch.old theta.now) result }
    ensures unchanged { KeptButMemoAndPairs scratch.old scratch.new }
{
    // No count: a pair that is taken can put others in its place.
    while scratch.waiting != 0 {
        match take_pair(store, theta, scratch)? {
            Step::Done => {}
            step => return Ok(step),
        }
    }
    Ok(Step::Done)
}
