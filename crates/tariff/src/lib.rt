// The check for programs in other languages, which link the static library: one function, over tables and texts as pointer and length.
#![tactic(auto)]

ghost use Rattle.std.specs.Prelude.{◌≡◌, ltb, length, drop};
ghost use Rattle.rules.specs.Limits.{FACTS};
ghost use Rattle.kernel.specs.Parsed.{theory_lists};
ghost use Rattle.running.specs.Lent.{working};
ghost use Rattle.running.specs.Checking.{tables_of};
ghost use Rattle.tariff.specs.Eight.{laid_eight, answered, Told};

use facts::Fact;
use running::finish::Report;
use running::refusal::Refusal;

// Eight numbers come to the front of a slice that has room for them.
fn put(out: &mut [u64], eight: &[u64; 8])
    ensures { out.new ≡ laid_eight (ltb (length out.old) 8) eight.now out.old }
{
    if let Some(front) = out.first_chunk_mut::<8>() {
        *front = *eight;
    }
}

// The answer in eight numbers.
fn tell(out: &mut [u64], answer: Result<Report, Refusal>)
    ensures { out.new ≡ answered answer out.old }
{
    let eight = match answer {
        Ok(r) => [
            1,
            r.steps,
            r.goals,
            r.open_goals,
            r.counts.hypotheses,
            r.counts.inductions,
            r.counts.inversions,
            r.counts.instances,
        ],
        Err(r) => [0, r.number(), r.text(), r.form(), r.detail(), 0, 0, 0],
    };
    // `as`: there is no `From<usize> for u64`, in Rust as here
    put(out, &eight.map(|n| n as u64));
}

// The whole check. A slice of fewer than eight numbers gets no answer. C lends each table and text as pointer and length, so that they stand one by one.
#[unsafe(no_mangle)]
pub extern "C" fn tariff_check(
    theory: &[u8],
    goals: &[u8],
    proof: &[u8],
    sorts: &mut [u32],
    symbols: &mut [u32],
    inputs: &mut [u32],
    rules: &mut [u32],
    rulevars: &mut [u32],
    patterns: &mut [u32],
    vars: &mut [u32],
    index: &mut [u32],
    words: &mut [u32],
    defs: &mut [u32],
    rows: &mut [u32],
    facts: &mut [Fact],
    lists: &mut [u32],
    missing: &mut [u32],
    answer: &mut [u64],
)
    ensures { Told theory.now goals.now proof.now
        (tables_of (theory_lists sorts.old symbols.old inputs.old rules.old rulevars.old patterns.old)
        (working vars.old index.old words.old defs.old rows.old lists.old)
        missing.old facts.old)
        (tables_of (theory_lists sorts.new symbols.new inputs.new rules.new rulevars.new patterns.new)
        (working vars.new index.new words.new defs.new rows.new lists.new)
        missing.new facts.new)
        answer.old answer.new × (drop FACTS facts.new ≡ drop FACTS facts.old) }
{
    let result = schematic::check(
        theory, goals, proof, sorts, symbols, inputs, rules, rulevars, patterns, vars, index,
        words, defs, rows, facts, lists, missing,
    );
    tell(answer, result);
}
