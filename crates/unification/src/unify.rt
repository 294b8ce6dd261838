// Unification over the store: a most general replacement that makes two terms equal, one variable bound after the other.
ghost use Rattle.std.specs.Prelude.{◌≡◌, suc, length, replicate};
ghost use Rattle.rules.specs.Unify.{unify};
ghost use Rattle.terms.specs.Lent.{SameTables, made_of, tree_of};
ghost use Rattle.unification.specs.Unify.{UnifiableIn, UnifiedIn, SameScratch, SameCells, ScratchKept, KeptButPairs};
ghost use Rattle.unification.specs.Peel.{Used, SolvableIn, RoundedIn, solves_in, SolvedIn};

use crate::peel::{Step, peel};
use crate::theta::extend;
use cells::clear;
use questions::Row;
use terms::store::Store;

// The tables beside the store and the bindings: zero before and after. `tariff_unify` lends them, of the pairs two of C's cells each. What changes
// the store and the bindings too (`peel`, `extend`, `solve`) is no method here: a receiver would take no argument away.
#[derive(Drop)]
pub struct Scratch<'a> {
    pub map: &'a mut [u32],
    pub memo: &'a mut [u32],
    pub pairs: &'a mut [u32],
    pub seen: &'a mut [u64],
    // how many of the pairs wait; of no meaning before and after
    pub waiting: usize,
}

// A memo becomes zero that has results in its first cells alone.
fn clear_memo(memo: &mut [u32], used: usize)
    requires { Used memo.old used }
    ensures { memo.new ≡ replicate (length memo.old) 0 }
{
    clear(&mut memo[..used]);
}

// Pairs are taken until one binds a variable, and that comes into the bindings: whether a unifier exists, once that is known. `map`, `memo`
// and `seen` of the scratch are zero before and after. None says that it is not known: `ControlFlow<bool>` would give the same two cases other
// names, `Break` and `Continue`, in as many lines.
fn bind_next(
    store: &mut Store<'_>,
    theta: &mut [u32],
    scratch: &mut Scratch<'_>,
) -> Result<Option<bool>, Row>
    requires { SolvableIn store.old scratch.old theta.old }
    ensures same_tables { SameTables store.old store.new }
    ensures same_cells { SameCells scratch.old scratch.new }
    ensures rounded { RoundedIn store.old store.new scratch.old scratch.new theta.old theta.new result }
    ensures unchanged { KeptButPairs scratch.old scratch.new }
{
    let peeled = peel(store, theta, scratch);
    // Only terms that are there have a result; after a refusal that is not known.
    let used = if peeled.is_ok() {
        store.mark.terms
    } else {
        scratch.memo.len()
    };
    clear_memo(scratch.memo, used);
    match peeled? {
        Step::Done => Ok(Some(true)),
        Step::Clash => Ok(Some(false)),
        Step::Binds { variable, term } => {
            extend(store, theta, scratch, variable, term)?;
            Ok(None)
        }
    }
}

// The pairs that wait, one variable bound after the other, at most `count` and one more: whether a unifier exists. `map`, `memo` and `seen` of
// the scratch are zero before and after.
fn solve(
    store: &mut Store<'_>,
    count: usize,
    theta: &mut [u32],
    scratch: &mut Scratch<'_>,
) -> Result<bool, Row>
    requires { SolvableIn store.old scratch.old theta.old }
    ensures same_tables { SameTables store.old store.new }
    ensures same_cells { SameCells scratch.old scratch.new }
    ensures solved_as { SolvedIn store.old store.new theta.new (solves_in (suc count) store.old scratch.old theta.old) result }
    ensures unchanged { KeptButPairs scratch.old scratch.new }
{
    for _round in 0..=count {
        if let Some(exists) = bind_next(store, theta, scratch)? {
            return Ok(exists);
        }
    }
    Ok(false)
}

// Whether two terms have a unifier, where their variables are below `count`. The bindings found are in `theta`; it is zero before, and where
// none are found. A `bool`: the bindings are lent, as `tariff_unify` has them from C (and by value `meet` of `inversion` took longer), and that there is
// no unifier is an answer and no refusal, so that `?` is for the want of room alone.
pub fn unify(
    store: &mut Store<'_>,
    count: usize,
    s: usize,
    t: usize,
    theta: &mut [u32],
    scratch: &mut Scratch<'_>,
) -> Result<bool, Row>
    requires { UnifiableIn store.old scratch.old count s t theta.old }
    ensures same_tables { SameTables store.old store.new }
    ensures unified_by { let m = store.old in UnifiedIn m store.new theta.new (unify count (tree_of m s) (tree_of m t) (made_of m)) result }
    ensures same_scratch { SameScratch scratch.old scratch.new }
    ensures scratch_kept { ScratchKept scratch.old scratch.new }
{
    scratch.pairs[0] = s as u32;
    scratch.pairs[1] = t as u32;
    scratch.waiting = 1;
    let result = solve(store, count, theta, scratch);
    clear(scratch.pairs);
    if result.unwrap_or(false) {
        return result;
    }
    clear(theta);
    result
}
