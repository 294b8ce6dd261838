// A term under a substitution, with a memo that is zero before and after (src/replace.rt).
ghost use Rattle.std.specs.Prelude.{◌≡◌, ◌<◌, length, replicate};
ghost use Rattle.rules.specs.Store.{substitute as substitute_tree};
ghost use Rattle.terms.specs.Lent.{SameTables, KeptAs, made_of, tree_of};
ghost use Rattle.terms.specs.Subst.{replacement, substituted_in, ReplaceableIn};

use crate::replace::replace;
use crate::store::Store;
use cells::clear;
use questions::Row;

// The term `id` under the substitution `map`. `memo` is scratch: zero before and after; arguments have smaller numbers than their term,
// so that no cell behind `id` is used.
// A struct that states its zeros was tried and is no plainer: it would ask for TERMS cells where this takes a memo of any length, and whoever
// hands it on, loops too, would say that its reference is the one lent, in the place of saying that it is zero.
pub fn substitute(
    store: &mut Store<'_>,
    map: &[u32],
    memo: &mut [u32],
    id: usize,
) -> Result<usize, Row>
    requires replaceable { ReplaceableIn store.old map.now id }
    requires id_in_bounds { (id < length memo.old) × (memo.old ≡ replicate (length memo.old) 0) }
    ensures same_tables { SameTables store.old store.new }
    ensures kept { let s = store.old in
        KeptAs s store.new (substituted_in s map.now id) (substitute_tree (replacement (made_of s) map.now) (tree_of s id) (made_of s)) result }
    ensures memo_unchanged { memo.new ≡ memo.old }
{
    let end = id + 1;
    let result = replace(store, map, &mut memo[..end], id);
    clear(&mut memo[..end]);
    result
}
