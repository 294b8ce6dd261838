// Functions on terms for programs in other languages, which link the static library. What one requires, its caller keeps.
#![tactic(auto)]

ghost use Rattle.std.specs.Prelude.{◌≡◌, ◌<◌, length, replicate};
ghost use Rattle.rules.specs.Find.{union};
ghost use Rattle.rules.specs.Tree.{variables as variables_in};
ghost use Rattle.terms.specs.Sets.{holds};
ghost use Rattle.terms.specs.Collect.{Readable};
ghost use Rattle.terms.specs.Table.{Good, Node, tree};
ghost use Rattle.terms.specs.Subst.{Replaceable};
ghost use Rattle.unification.specs.Unify.{Unifiable};
ghost use Rattle.exports_terms.specs.Keeps.{Keeps, Replaces};
ghost use Rattle.exports_terms.specs.Unifies.{found_of, Unifies};

use questions::Row;
use terms::store::{Mark, Store, Terms};
use terms::substitute::substitute;
use terms::variables::variables;
use unification::unify::{Scratch, unify};

// The number of a node's term, which comes into the store if it is new; the number of terms that fit where it does not. The node is the
// first parameter, since a slice that is passed on the stack is read there before it is quite written, for which the processor waits.
#[unsafe(no_mangle)]
pub extern "C" fn tariff_keep(
    node: &[u32],
    index: &mut [u32],
    words: &mut [u32],
    count: usize,
    used: usize,
) -> usize
    requires good { Good index.old words.old (record { terms = count; words = used }) }
    requires node { Node count node.now }
    ensures { Keeps index.old words.old index.new words.new (record { terms = count; words = used }) node.now result }
{
    // by its fields' names: of a function of two numbers nobody sees which is which
    let mark = Mark {
        terms: count,
        words: used,
    };
    let mut store = Store { index, words, mark };
    store.keep(node).unwrap_or(rules::TERMS)
}

// The variables of a term join the set; `seen` is scratch.
#[unsafe(no_mangle)]
pub extern "C" fn tariff_variables(
    index: &[u32],
    words: &[u32],
    count: usize,
    used: usize,
    id: usize,
    seen: &mut [u64],
    set: &mut [u64],
)
    requires readable { Readable index.now words.now (record { terms = count; words = used }) id seen.old set.old }
    requires seen_value { seen.old ≡ replicate (length seen.old) 0 }
    ensures { (holds set.new ≡ union (holds set.old) (variables_in (tree index.now words.now (record { terms = count; words = used }) id))) × (seen.new ≡ seen.old) }
{
    let mark = Mark {
        terms: count,
        words: used,
    };
    let terms = Terms { index, words, mark };
    variables(&terms, id, seen, set);
}

// The number of a term under a replacement: for a variable the map has a term's number and 1, or 0 where the variable stays. `memo` is
// scratch.
#[unsafe(no_mangle)]
pub extern "C" fn tariff_substitute(
    index: &mut [u32],
    words: &mut [u32],
    count: usize,
    used: usize,
    map: &[u32],
    memo: &mut [u32],
    id: usize,
) -> usize
    requires replaceable { Replaceable index.old words.old (record { terms = count; words = used }) map.now id }
    requires id_in_bounds { (id < length memo.old) × (memo.old ≡ replicate (length memo.old) 0) }
    ensures replaces { Replaces index.old words.old index.new words.new (record { terms = count; words = used }) map.now id result }
    ensures memo_unchanged { memo.new ≡ memo.old }
{
    let mark = Mark {
        terms: count,
        words: used,
    };
    let mut store = Store { index, words, mark };
    substitute(&mut store, map, memo, id).unwrap_or(rules::TERMS)
}

// An answer of unification as a number: 1 where bindings are found, 0 where there are none, 2 where a table has no room.
fn number_of(answer: Result<bool, Row>) -> usize
    ensures { result ≡ found_of answer }
{
    answer.map_or(2, usize::from)
}

// Two terms whose variables are below `variables` are unified. The bindings found are in `theta`, in the form of a map; it is zero before,
// and where none are found. `map`, `memo`, `pairs` and `seen` are scratch: zero before and after.
// C lends each table as pointer and length, so that they stand one by one.
#[unsafe(no_mangle)]
pub extern "C" fn tariff_unify(
    index: &mut [u32],
    words: &mut [u32],
    count: usize,
    used: usize,
    variables: usize,
    s: usize,
    t: usize,
    theta: &mut [u32],
    map: &mut [u32],
    memo: &mut [u32],
    pairs: &mut [u32],
    seen: &mut [u64],
) -> usize
    requires { Unifiable index.old words.old (record { terms = count; words = used }) variables s t theta.old map.old memo.old pairs.old seen.old }
    ensures unifies { Unifies index.old words.old index.new words.new (record { terms = count; words = used }) variables s t theta.new result }
    ensures map_unchanged { (map.new ≡ map.old) × (memo.new ≡ memo.old) × (pairs.new ≡ pairs.old) × (seen.new ≡ seen.old) }
{
    let mark = Mark {
        terms: count,
        words: used,
    };
    let mut store = Store { index, words, mark };
    let mut scratch = Scratch {
        map,
        memo,
        pairs,
        seen,
        waiting: 0,
    };
    number_of(unify(&mut store, variables, s, t, theta, &mut scratch))
}
