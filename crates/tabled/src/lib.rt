// A check whose facts are answered as numbers, for callers that hold no table of records: six cells a fact, and its footing as four words.
#![tactic(auto)]

ghost use Rattle.std.specs.Prelude.{◌≡◌, ◌++◌, ◌+◌, ◌*◌, ◌≤◌, length, drop};
ghost use Rattle.std.proofs.lemmas.List.Edits.{sets};
ghost use Rattle.rules.specs.Limits.{FACTS};
ghost use Rattle.kernel.specs.Parsed.{theory_lists};
ghost use Rattle.state.specs.Records.{fact_row, fact_foot, fact_rows, fact_feet};
ghost use Rattle.running.specs.Lent.{working};
ghost use Rattle.tabled.specs.Tabled.{Tabled};

pub mod answers;
#[cfg(test)]
mod called;
mod tables;
pub mod told;

use facts::Fact;
use running::finish::Report;
use running::refusal::Refusal;

// Row i of a table of so wide ones. It is copied: behind `as_chunks_mut` nothing is known of what was written.
fn put<T: Copy, const N: usize>(table: &mut [T], i: usize, row: &[T; N])
    requires { N * i + N ≤ length table.old }
    ensures { table.new ≡ sets table.old (N * i) row.now }
{
    let at = N * i;
    let end = at + N;
    table[at..end].copy_from_slice(row);
}

// The row and the footing of fact i. The fact comes by value: of one in a slice nothing is known of its footing's length.
fn put_fact(rows: &mut [u32], feet: &mut [u64], i: usize, f: Fact)
    requires { (6 * i + 6 ≤ length rows.old) × (4 * i + 4 ≤ length feet.old) }
    ensures row { rows.new ≡ sets rows.old (6 * i) (fact_row f) }
    ensures foot { feet.new ≡ sets feet.old (4 * i) (fact_foot f) }
{
    let row = [
        f.judgment, f.assumed, f.first, f.hyps, f.premises, f.general,
    ];
    put(rows, i, &row);
    put(feet, i, &f.footing);
}

// Rows and footings of the records.
fn store_rows(facts: &[Fact], rows: &mut [u32], feet: &mut [u64])
    requires { (6 * length facts.now ≤ length rows.old) × (4 * length facts.now ≤ length feet.old) }
    ensures rows { rows.new ≡ fact_rows facts.now ++ drop (6 * length facts.now) rows.old }
    ensures feet { feet.new ≡ fact_feet facts.now ++ drop (4 * length facts.now) feet.old }
{
    for (i, f) in facts.iter().enumerate() {
        put_fact(rows, feet, i, *f);
    }
}

// The answer, the tables as a check leaves them, and the facts in the last two. Nothing here calls it: it is public and promised (`Tabled`) for tables of any
// length; its contract names each table, and they are lent on one by one to `schematic::check`, beside which it is said why. They are most of its length.
pub fn check_rows(
    theory: &[u8],
    goals: &[u8],
    proof: &[u8],
    sorts: &mut [u32],
    symbols: &mut [u32],
    inputs: &mut [u32],
    rules: &mut [u32],
    rulevars: &mut [u32],
    patterns: &mut [u32],
    vars: &mut [u32],
    index: &mut [u32],
    words: &mut [u32],
    defs: &mut [u32],
    rows: &mut [u32],
    lists: &mut [u32],
    missing: &mut [u32],
    facts: &mut [u32],
    footings: &mut [u64],
) -> Result<Report, Refusal>
    requires { (6 * FACTS ≤ length facts.old) × (4 * FACTS ≤ length footings.old) }
    ensures { Tabled theory.now goals.now proof.now
        (theory_lists sorts.old symbols.old inputs.old rules.old rulevars.old patterns.old)
        (theory_lists sorts.new symbols.new inputs.new rules.new rulevars.new patterns.new)
        (working vars.old index.old words.old defs.old rows.old lists.old)
        (working vars.new index.new words.new defs.new rows.new lists.new)
        missing.old missing.new facts.old facts.new footings.old footings.new result }
{
    let mut records = [Fact::BLANK; rules::FACTS];
    let r = schematic::check(
        theory,
        goals,
        proof,
        sorts,
        symbols,
        inputs,
        rules,
        rulevars,
        patterns,
        vars,
        index,
        words,
        defs,
        rows,
        &mut records,
        lists,
        missing,
    );
    store_rows(&records, facts, footings);
    r
}
