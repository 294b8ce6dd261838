// A substitution that grows by one binding after the other, in cells (specs/Theta.antt of `terms` says how they stand for bindings).
ghost use Rattle.std.specs.Prelude.{◌≡◌};
ghost use Rattle.rules.specs.Unify.{replace};
ghost use Rattle.terms.specs.Lent.{SameTables, made_of, tree_of};
ghost use Rattle.terms.specs.Subst.{replacement};
ghost use Rattle.terms.specs.Theta.{bindings};
ghost use Rattle.unification.specs.Unify.{SameCells, ScratchKept};
ghost use Rattle.unification.specs.Extend.{in_values, ChangeableIn, ChangedIn, ExtendableIn, ExtendedIn};

use crate::unify::Scratch;
use cells::clear;
use questions::Row;
use terms::replace::replace;
use terms::store::Store;

// Every value under the substitution `map`, by rising variable. The memo serves all of them, as the substitution is one. Both are lent one by
// one: the map is only read, and of the memo the first cells alone are lent.
fn replace_values(
    store: &mut Store<'_>,
    theta: &mut [u32],
    map: &[u32],
    memo: &mut [u32],
) -> Result<(), Row>
    requires { ChangeableIn store.old theta.old map.now memo.old }
    ensures same_tables { SameTables store.old store.new }
    ensures changed_as { let s = store.old in ChangedIn s store.new theta.old theta.new
        (in_values (replacement (made_of s) map.now) (bindings (made_of s) theta.old 0) (made_of s)) result }
{
    for cell in theta.iter_mut() {
        let Some(bound) = (*cell as usize).checked_sub(1) else {
            continue;
        };
        let value = replace(store, map, memo, bound)?;
        *cell = (value + 1) as u32;
    }
    Ok(())
}

// The variable `x` gets the value `u`: `u` for `x` in every value, by rising variable, then `x` itself. `map` and `memo` of the scratch are zero
// before and after.
pub fn extend(
    store: &mut Store<'_>,
    theta: &mut [u32],
    scratch: &mut Scratch<'_>,
    x: usize,
    u: usize,
) -> Result<(), Row>
    requires { ExtendableIn store.old scratch.old theta.old x u }
    ensures same_tables { SameTables store.old store.new }
    ensures same_cells { SameCells scratch.old scratch.new }
    ensures extended { let s = store.old in ExtendedIn s store.new theta.new x u
        (replace x (tree_of s u) (bindings (made_of s) theta.old 0) (made_of s)) result }
    ensures scratch_kept { ScratchKept scratch.old scratch.new }
    ensures waiting { scratch.new.waiting ≡ scratch.old.waiting }
{
    let terms = store.mark.terms;
    let map = &mut *scratch.map;
    let memo = &mut *scratch.memo;
    map[x] = (u + 1) as u32;
    let changed = replace_values(store, theta, map, &mut memo[..terms]);
    map[x] = 0;
    clear(&mut memo[..terms]);
    changed?;
    theta[x] = (u + 1) as u32;
    Ok(())
}
