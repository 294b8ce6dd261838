// A term under a substitution, with a memo of the results: recursion on falling term numbers, so that a shared subterm is visited once. A
// term without variables is its own result. A cell of the map or the memo is 0 for none, or a number with 1 added: `tariff_substitute` and
// `tariff_unify` lend both as C's plain cells.
ghost use Rattle.std.specs.Prelude.{◌≡◌, ◌++◌, ◌-◌, ◌≤◌, length, drop};
ghost use Rattle.rules.specs.Limits.{NODE};
ghost use Rattle.rules.specs.Store.{keep as keep_tree};
ghost use Rattle.terms.specs.Table.{tree_at, Shaped};
ghost use Rattle.terms.specs.Lent.{GoodStore, SameTables, KeptAs, made_of};
ghost use Rattle.terms.specs.Subst.{image, rebuilt, Rebuildable, ReplacingIn, SubstitutedIn};

use crate::heads::Head;
use crate::store::Store;
use questions::Row;
use rules::NODE;

// The number that the map gives the variable `v`, or `id` where it leaves the variable.
fn image_of(map: &[u32], v: usize, id: usize) -> usize
    ensures { result ≡ image map.now v id }
{
    let Some(cell) = map.get(v) else {
        return id;
    };
    (*cell as usize).checked_sub(1).unwrap_or(id)
}

// The node that stands from `start` to `end`, with its arguments as the memo has them. By two places, of which the relations speak, that
// follow terms through a store that grows. The cells go by number, since behind a zip with `iter_mut` nothing is known of what was written.
fn gather(words: &[u32], memo: &[u32], start: usize, end: usize, node: &mut [u32])
    requires rebuildable { Rebuildable words.now memo.now start end }
    requires in_bounds { NODE ≤ length node.old }
    ensures { node.new ≡ rebuilt words.now memo.now start end ++ drop (end - start) node.old }
{
    node[0] = words[start];
    for (k, arg) in words[start + 1..end].iter().enumerate() {
        node[k + 1] = memo[*arg as usize] - 1;
    }
}

// The node that stands from `start` to `end`, with its arguments as the memo has them, comes into the store.
fn rebuild(store: &mut Store<'_>, memo: &[u32], start: usize, end: usize) -> Result<usize, Row>
    requires good { GoodStore store.old }
    requires rebuildable { Rebuildable store.old.words.now memo.now start end }
    requires shaped { Shaped store.old.mark.terms (rebuilt store.old.words.now memo.now start end) }
    ensures same_tables { SameTables store.old store.new }
    ensures kept { let t = tree_at (made_of store.old) (rebuilt store.old.words.now memo.now start end) in
        KeptAs store.old store.new t (keep_tree t (made_of store.old)) result }
{
    // an array, as in `Patterns::build`
    let mut node = [0u32; NODE];
    gather(store.terms().words, memo, start, end, &mut node);
    store.keep(&node[..end - start])
}

// The term `id` under the substitution `map`, with the results that the memo has.
pub fn replace(
    store: &mut Store<'_>,
    map: &[u32],
    memo: &mut [u32],
    id: usize,
) -> Result<usize, Row>
    requires { ReplacingIn store.old map.now memo.old id }
    ensures same_tables { SameTables store.old store.new }
    ensures substituted { SubstitutedIn store.old store.new map.now memo.old memo.new id result }
{
    if let Some(known) = (memo[id] as usize).checked_sub(1) {
        return Ok(known);
    }
    let terms = store.terms();
    if !terms.is_open(id) {
        memo[id] = (id + 1) as u32;
        return Ok(id);
    }
    let start = terms.start_of(id);
    let end = terms.index[id] as usize;
    if let Head::Variable(v) = Head::from(terms.words[start]) {
        let value = image_of(map, v, id);
        memo[id] = (value + 1) as u32;
        return Ok(value);
    }
    // by its place: the store is lent on in each turn
    for at in start + 1..end {
        let arg = store.words[at] as usize;
        replace(store, map, memo, arg)?;
    }
    let kept = rebuild(store, memo, start, end)?;
    memo[id] = (kept + 1) as u32;
    Ok(kept)
}
