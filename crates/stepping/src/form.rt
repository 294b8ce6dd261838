// One form of the proof, in tables that may be longer than named.
ghost use Rattle.kernel.specs.Parsed.{theory_lists};
ghost use Rattle.forms.specs.Boards.{theory_of};
ghost use Rattle.running.specs.Lent.{working, theory_front};
ghost use Rattle.advancing.specs.Stepped.{IdleIn, SameScratch};
ghost use Rattle.stepping.specs.Going.{GoingIn, Going, Advanced};

use crate::used::Used;
use advancing::advance::{Advance, Scratch, next_form as next_exact};
use beginning::lengths;
use facts::Fact;
use kernel::rule_readers::Rules;
use questions::Question;
use running::texts::Texts;
use state::board::{Board, Given};
use terms::store::Store;

// Where the tables of the theory have their named lengths.
fn form_long(
    given: &Given<'_>,
    at: usize,
    used: &mut Used,
    vars: &mut [u32],
    index: &mut [u32],
    words: &mut [u32],
    defs: &mut [u32],
    rows: &mut [u32],
    facts: &mut [Fact],
    lists: &mut [u32],
    scratch: &mut Scratch<'_>,
) -> Result<Option<Advance>, Question>
    requires going { GoingIn given.now.theory.now given.now.goals.now given.now.text.now (theory_of given.now)
        (working vars.old index.old words.old defs.old rows.old lists.old) facts.old used.old at }
    requires idle { IdleIn scratch.old }
    ensures same_scratch { SameScratch scratch.old scratch.new }
    ensures advanced { (g : GoingIn given.now.theory.now given.now.goals.now given.now.text.now (theory_of given.now)
        (working vars.old index.old words.old defs.old rows.old lists.old) facts.old used.old at) →
        Advanced given.now.theory.now given.now.goals.now given.now.text.now (theory_of given.now)
        (working vars.old index.old words.old defs.old rows.old lists.old) (working vars.new index.new words.new defs.new rows.new lists.new)
        facts.old facts.new used.old used.new g.k at g.S result }
    ensures idle_again { IdleIn scratch.new }
{
    let (vars, _) = vars.split_at_mut(lengths::VARS);
    let (index, _) = index.split_at_mut(lengths::INDEX);
    let (words, _) = words.split_at_mut(lengths::WORDS);
    let (defs, _) = defs.split_at_mut(lengths::DEFS);
    let (rows, _) = rows.split_at_mut(lengths::ROWS);
    let (facts, _) = facts.split_at_mut(rules::FACTS);
    let (lists, _) = lists.split_at_mut(lengths::LISTS);
    let mut board = Board {
        vars,
        defs,
        rows,
        facts,
        lists,
        n: used.n,
    };
    let mut store = Store {
        index,
        words,
        mark: used.mark,
    };
    let next = next_exact(given, &mut board, &mut store, scratch, at);
    used.n = board.n;
    used.mark = store.mark;
    next
}

// The form that begins at a place of the proof; none where there is no further one.
pub fn next_form(
    texts: &Texts<'_>,
    at: usize,
    used: &mut Used,
    sorts: &[u32],
    symbols: &[u32],
    inputs: &[u32],
    rules: &[u32],
    rulevars: &[u32],
    patterns: &[u32],
    vars: &mut [u32],
    index: &mut [u32],
    words: &mut [u32],
    defs: &mut [u32],
    rows: &mut [u32],
    facts: &mut [Fact],
    lists: &mut [u32],
    scratch: &mut Scratch<'_>,
) -> Result<Option<Advance>, Question>
    requires going { Going texts.now.theory.now texts.now.goals.now texts.now.proof.now
        (theory_lists sorts.now symbols.now inputs.now rules.now rulevars.now patterns.now)
        (working vars.old index.old words.old defs.old rows.old lists.old) facts.old used.old at }
    requires idle { IdleIn scratch.old }
    ensures same_scratch { SameScratch scratch.old scratch.new }
    ensures advanced { (g : Going texts.now.theory.now texts.now.goals.now texts.now.proof.now
        (theory_lists sorts.now symbols.now inputs.now rules.now rulevars.now patterns.now)
        (working vars.old index.old words.old defs.old rows.old lists.old) facts.old used.old at) →
        Advanced texts.now.theory.now texts.now.goals.now texts.now.proof.now
        (theory_front (theory_lists sorts.now symbols.now inputs.now rules.now rulevars.now patterns.now))
        (working vars.old index.old words.old defs.old rows.old lists.old) (working vars.new index.new words.new defs.new rows.new lists.new)
        facts.old facts.new used.old used.new g.rest.k at g.rest.S result }
    ensures idle_again { IdleIn scratch.new }
{
    let given = Given {
        theory: texts.theory,
        goals: texts.goals,
        text: texts.proof,
        sorts: &sorts[..lengths::SORTS],
        symbols: &symbols[..lengths::SYMBOLS],
        inputs: &inputs[..lengths::INPUTS],
        rules: Rules {
            rows: &rules[..lengths::RULES],
            vars: &rulevars[..lengths::RULEVARS],
            patterns: &patterns[..lengths::PATTERNS],
        },
    };
    form_long(
        &given, at, used, vars, index, words, defs, rows, facts, lists, scratch,
    )
}
