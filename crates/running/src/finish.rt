// The end of a check: question 53 with its list, or the report. The store's look-up is settled, so that its table holds nothing but places.
ghost use Rattle.std.specs.Prelude.{◌≡◌, length, replicate};
ghost use Rattle.rules.specs.Limits.{GOALS};
ghost use Rattle.rules.specs.Check.{count_open};
ghost use Rattle.rules.specs.TheoryTables.{filled};
ghost use Rattle.terms.specs.Table.{settled};
ghost use Rattle.terms.specs.Lent.{SameTables};
ghost use Rattle.running.specs.declared.refusal.Refusal.TheVariants.{Stopped as stopped_at};
ghost use Rattle.running.specs.Finished.{unproved, GoalRowsIn, OpenRowsIn, OpenRowAt, row_open, FinishGivenIn, Finishes, ListedFor};

use crate::refusal::Refusal;
use crate::stopped::{Proved, Stopped};
use cells::clear;
use counts::Counts;
use questions::{Question, Text};
use state::board::Board;
use state::goals::{GoalTable, goal_judgment, is_taken};
use terms::store::{Store, Terms};

// Facts; goals, those with variables; what the forms of the proof count.
#[derive(Clone, Copy, Debug, PartialEq, Eq)]
pub struct Report {
    pub steps: usize,
    pub goals: usize,
    pub open_goals: usize,
    pub counts: Counts,
}

// The goals without a result.
fn count_missing(goals: &GoalTable<'_>) -> usize
    requires { GoalRowsIn goals.now }
    ensures { (g : GoalRowsIn goals.now) → result ≡ length (unproved g.gs) }
{
    let rows = goals.rows;
    (0..goals.count).filter(|k| !is_taken(rows, *k)).count()
}

// They come into the list, numbered from 1.
fn list_missing(goals: &GoalTable<'_>, missing: &mut [u32])
    requires { GoalRowsIn goals.now × (missing.old ≡ replicate GOALS 0) }
    ensures { (g : GoalRowsIn goals.now) → missing.new ≡ filled GOALS (unproved g.gs) }
{
    let rows = goals.rows;
    for (entry, k) in (0..goals.count).filter(|k| !is_taken(rows, *k)).enumerate() {
        missing[entry] = (k + 1) as u32;
    }
}

// Whether the judgment of goal k has a variable. A function of its own, which says of each k what it answers, as a proof about a filter asks.
fn is_goal_open(rows: &[u32], terms: &Terms<'_>, k: usize) -> bool
    requires { OpenRowAt rows.now terms.now k }
    ensures { result ≡ row_open rows.now terms.now k }
{
    terms.is_open(goal_judgment(rows, k))
}

// The goals whose judgment has a variable.
fn count_open(goals: &GoalTable<'_>, terms: &Terms<'_>) -> usize
    requires { OpenRowsIn goals.now terms.now }
    ensures { (g : OpenRowsIn goals.now terms.now) → result ≡ count_open g.gs }
{
    let rows = goals.rows;
    (0..goals.count)
        .filter(|k| is_goal_open(rows, terms, *k))
        .count()
}

// The refusal where the check has stopped. The list belongs to 53, whoever asks it.
fn carry(stopped: Stopped, goals: &GoalTable<'_>, missing: &mut [u32]) -> Refusal
    requires { GoalRowsIn goals.now × (missing.old ≡ replicate GOALS 0) }
    ensures refusal { result ≡ stopped_at stopped }
    ensures list { (g : GoalRowsIn goals.now) → ListedFor stopped.refused.question (unproved g.gs) missing.new }
{
    if let Question::MissingResults(_) = stopped.refused.question {
        list_missing(goals, missing);
    }
    Refusal::Stopped(stopped)
}

// The answer to a check that has stopped, or has gone through the proof.
pub fn finish(
    outcome: Result<Proved, Stopped>,
    board: &Board<'_>,
    store: &mut Store<'_>,
    missing: &mut [u32],
) -> Result<Report, Refusal>
    requires { FinishGivenIn outcome board.now store.old × (length missing.old ≡ GOALS) }
    ensures same_tables { SameTables store.old store.new }
    ensures finishes { (g : FinishGivenIn outcome board.now store.old) →
        Finishes g.theory g.goals g.proof result missing.new }
    ensures index_after { store.new.index.now ≡ settled store.old.index.now }
    ensures words_after { store.new.words.now ≡ store.old.words.now }
    ensures mark_after { store.new.mark ≡ store.old.mark }
{
    let goals = board.goal_table();
    let open_goals = count_open(&goals, &store.terms());
    store.settle();
    clear(missing);
    // no `map_err`: it promises what its closure answers, and not what that leaves in the list
    let proved = match outcome {
        Ok(proved) => proved,
        Err(stopped) => return Err(carry(stopped, &goals, missing)),
    };
    let many = count_missing(&goals);
    if many != 0 {
        list_missing(&goals, missing);
        let refused = Question::MissingResults(many).behind(proved.forms);
        return Err(Refusal::Stopped(Stopped::left_in(Text::Proof, refused)));
    }
    Ok(Report {
        steps: board.n.facts,
        goals: goals.count,
        open_goals,
        counts: proved.counts,
    })
}
