// The recorded facts: one lent table of records. Records are written here alone; whoever only reads takes the fields that it needs.
#![tactic(auto)]

ghost use Rattle.std.specs.Prelude.{◌≡◌, not, ◌<◌, ◌≤◌, eqb, length, get_or, set, Some};
ghost use Rattle.facts.specs.declared.Fact.{Fact};
ghost use Rattle.facts.specs.Table.{blank, appended, zeroed};

use rules::RULEWORDS;

// The number of its judgment; 1 if it is assumed; the first entry of its lists; how many hypotheses, premises and generalised variables they
// have; the rules that it rests on, a bit each. Programs in other languages lend such records, so that their layout is C's.
#[repr(C)]
#[derive(Clone, Copy, Debug, PartialEq, Eq)]
pub struct Fact {
    pub judgment: u32,
    pub assumed: u32,
    pub first: u32,
    pub hyps: u32,
    pub premises: u32,
    pub general: u32,
    pub footing: [u64; RULEWORDS],
}

impl Fact {
    // The record of zeros.
    pub const BLANK: Fact = Fact {
        judgment: 0,
        assumed: 0,
        first: 0,
        hyps: 0,
        premises: 0,
        general: 0,
        footing: [0; RULEWORDS],
    };
}

// Whether it is a hypothesis.
pub fn is_assumed(f: Fact) -> bool
    ensures { result ≡ not (eqb f.assumed 0) }
{
    f.assumed != 0
}

// Record i.
pub fn fact_at(facts: &[Fact], i: usize) -> Fact
    requires { i < length facts.now }
    ensures { result ≡ get_or facts.now i blank }
{
    facts[i]
}

// The judgment of fact i.
pub fn judgment_of(facts: &[Fact], i: usize) -> u32
    requires { i < length facts.now }
    ensures { result ≡ (get_or facts.now i blank).judgment }
{
    facts[i].judgment
}

// Record i becomes f.
pub fn append(facts: &mut [Fact], i: usize, f: Fact)
    requires { i < length facts.old }
    ensures { facts.new ≡ set facts.old i f }
{
    facts[i] = f;
}

// The same where a fact is stored: i is a place of the table only then. It is public and promised; nothing here calls it.
pub fn append_if(facts: &mut [Fact], i: usize, stored: Option<Fact>)
    requires { (f : Fact) → stored ≡ Some f → i < length facts.old }
    ensures { facts.new ≡ appended stored facts.old i }
{
    if let Some(f) = stored {
        append(facts, i, f);
    }
}

// The records from..to become blank.
pub fn zero_behind(facts: &mut [Fact], from: usize, to: usize)
    requires { (from ≤ to) × (to ≤ length facts.old) }
    ensures { facts.new ≡ zeroed facts.old from to }
{
    facts[from..to].fill(Fact::BLANK);
}
