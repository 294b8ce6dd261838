// Terms that are put under one substitution, one after the other.
ghost use Rattle.std.specs.Prelude.{◌≡◌};
ghost use Rattle.rules.specs.Store.{substitutes};
ghost use Rattle.terms.specs.Table.{args_of};
ghost use Rattle.terms.specs.Lent.{SameTables, made_of};
ghost use Rattle.terms.specs.Subst.{replacement};
ghost use Rattle.referring.specs.Substitutes.{ReplaceablesIn, ReplacedAs};

use questions::Row;
use terms::store::Store;
use terms::substitute::substitute;

// The terms under the substitution `map`, in order: their numbers come into the cells of `out`, one for each. `memo` is scratch: zero before and after.
pub fn substitute_all(
    store: &mut Store<'_>,
    map: &[u32],
    memo: &mut [u32],
    ids: &[u32],
    out: &mut [u32],
) -> Result<(), Row>
    requires { ReplaceablesIn store.old map.now memo.old ids.now out.old }
    ensures same_tables { SameTables store.old store.new }
    ensures replaced_as { let M = made_of store.old in
        ReplacedAs store.old store.new (substitutes (replacement M map.now) (args_of M ids.now) M) out.new result }
    ensures memo_unchanged { memo.new ≡ memo.old }
{
    // by its place: behind a zip with `iter_mut` nothing is known of what was written
    for (k, id) in ids.iter().enumerate() {
        out[k] = substitute(store, map, memo, *id as usize)? as u32;
    }
    Ok(())
}
