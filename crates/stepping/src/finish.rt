// The end of a check, in tables that may be longer than named.
ghost use Rattle.std.specs.Prelude.{◌≡◌, Result, Err};
ghost use Rattle.running.specs.declared.stopped.Proved.{Proved as ProvedAs};
ghost use Rattle.running.specs.declared.stopped.Stopped.{Stopped as StoppedAt};
ghost use Rattle.running.specs.declared.refusal.Refusal.TheVariants.{Tables};
ghost use Rattle.running.specs.Lent.{working};
ghost use Rattle.stepping.specs.Parts.{refused_by};
ghost use Rattle.stepping.specs.Ending.{ends_of, Ending, Ended};

use crate::used::Used;
use beginning::lengths;
use facts::Fact;
use running::finish::{Report, finish};
use running::refusal::Refusal;
use running::stopped::{Proved, Stopped};
use state::board::Board;
use terms::store::Store;

// Where the forms of a check have ended; none where question 1 is left.
fn ends_of(outcome: Result<Proved, Refusal>) -> Option<Result<Proved, Stopped>>
    ensures { result ≡ ends_of outcome }
{
    match outcome {
        Ok(proved) => Some(Ok(proved)),
        Err(Refusal::Stopped(stopped)) => Some(Err(stopped)),
        Err(Refusal::Tables) => None,
    }
}

// In tables that are all long enough.
fn end_fit(
    outcome: Result<Proved, Stopped>,
    used: &Used,
    vars: &mut [u32],
    index: &mut [u32],
    words: &mut [u32],
    defs: &mut [u32],
    rows: &mut [u32],
    facts: &mut [Fact],
    lists: &mut [u32],
    missing: &mut [u32],
) -> Result<Report, Refusal>
    requires { Ending outcome used.now (working vars.old index.old words.old defs.old rows.old lists.old) facts.old missing.old }
    ensures { (g : Ending outcome used.now (working vars.old index.old words.old defs.old rows.old lists.old) facts.old missing.old) →
        Ended g.theory g.goals g.proof
        (working vars.old index.old words.old defs.old rows.old lists.old) (working vars.new index.new words.new defs.new rows.new lists.new)
        missing.old missing.new facts.old facts.new result }
{
    let (vars, _) = vars.split_at_mut(lengths::VARS);
    let (index, _) = index.split_at_mut(lengths::INDEX);
    let (words, _) = words.split_at_mut(lengths::WORDS);
    let (defs, _) = defs.split_at_mut(lengths::DEFS);
    let (rows, _) = rows.split_at_mut(lengths::ROWS);
    let (facts, _) = facts.split_at_mut(rules::FACTS);
    let (lists, _) = lists.split_at_mut(lengths::LISTS);
    let (missing, _) = missing.split_at_mut(lengths::MISSING);
    let board = Board {
        vars,
        defs,
        rows,
        facts,
        lists,
        n: used.n,
    };
    let mut store = Store {
        index,
        words,
        mark: used.mark,
    };
    finish(outcome, &board, &mut store, missing)
}

// The answer to a check that was refused, or has gone through the proof. Where question 1 was left, it is that refusal, nothing is asked and nothing written.
pub fn end(
    outcome: Result<Proved, Refusal>,
    used: &Used,
    vars: &mut [u32],
    index: &mut [u32],
    words: &mut [u32],
    defs: &mut [u32],
    rows: &mut [u32],
    facts: &mut [Fact],
    lists: &mut [u32],
    missing: &mut [u32],
) -> Result<Report, Refusal>
    requires { (e : Result ProvedAs StoppedAt) → outcome ≡ refused_by e →
        Ending e used.now (working vars.old index.old words.old defs.old rows.old lists.old) facts.old missing.old }
    ensures ended { (e : Result ProvedAs StoppedAt) → outcome ≡ refused_by e →
        (g : Ending e used.now (working vars.old index.old words.old defs.old rows.old lists.old) facts.old missing.old) →
        Ended g.theory g.goals g.proof
        (working vars.old index.old words.old defs.old rows.old lists.old) (working vars.new index.new words.new defs.new rows.new lists.new)
        missing.old missing.new facts.old facts.new result }
    ensures unfit { outcome ≡ Err Tables → (result ≡ Err Tables) × (missing.new ≡ missing.old) × (facts.new ≡ facts.old)
        × (working vars.new index.new words.new defs.new rows.new lists.new ≡ working vars.old index.old words.old defs.old rows.old lists.old) }
{
    let Some(ends) = ends_of(outcome) else {
        return Err(Refusal::Tables);
    };
    end_fit(
        ends, used, vars, index, words, defs, rows, facts, lists, missing,
    )
}
