// The store for programs in other languages, which link the static library: a chain of terms, made in one call. What it requires, its
// caller keeps. `keep` is called at one place of the library, so that the compiler puts it in place there.
#![tactic(auto)]

ghost use Rattle.std.specs.Prelude.{◌<◌, get_or};
ghost use Rattle.rules.specs.Tree.{var};
ghost use Rattle.terms.specs.Table.{Good};
ghost use Rattle.terms.specs.Lent.{GoodStore, made_of, SameTables, KeptAs};
ghost use Rattle.exports_store.specs.Chains.{chain, links, Chained};

use questions::Row;
use terms::store::{Mark, Store};

// Makes so many terms, each symbol 9 over the last one and the first.
fn make_chain(store: &mut Store<'_>, first: usize, times: usize) -> Result<usize, Row>
    requires good { GoodStore store.old }
    requires first_there { first < store.old.mark.terms }
    ensures same_tables { SameTables store.old store.new }
    ensures kept { let t = get_or (made_of store.old) first (var 0) in KeptAs store.old store.new (chain t times) (links t times (made_of store.old)) result }
{
    let mut last = first;
    for _ in 0..times {
        last = store.keep(&[9, last as u32, first as u32])?;
    }
    Ok(last)
}

// The chain over the first term, which is a term that stands: the number of the last one; the number of terms that fit where there is no room.
#[unsafe(no_mangle)]
pub extern "C" fn tariff_chain(
    index: &mut [u32],
    words: &mut [u32],
    count: usize,
    used: usize,
    first: usize,
    times: usize,
) -> usize
    requires good { Good index.old words.old (record { terms = count; words = used }) }
    requires first_lt_count { first < count }
    ensures { Chained index.old words.old index.new words.new (record { terms = count; words = used }) first times result }
{
    // by its fields' names: of a function of two numbers nobody sees which is which
    let mark = Mark {
        terms: count,
        words: used,
    };
    let mut store = Store { index, words, mark };
    make_chain(&mut store, first, times).unwrap_or(rules::TERMS)
}
