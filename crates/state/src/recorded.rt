// The tables of facts: a record each (judgment, whether it is assumed, its entries, its footing, which is a set of rules), and its entries in the lists
// (hypotheses, premises, generalised variables). What is promised of a record speaks of its row of six cells and its four words, as the definition's tables
// have them.
ghost use Rattle.std.specs.Prelude.{◌≡◌, not, List, ℕ, ◌+◌, ◌*◌, ◌<◌, ◌≤◌, ◌^◌, eqb, ltb, length, take, drop};
ghost use Rattle.rules.specs.Limits.{FACTS, ENTRIES, RULEWORDS};
ghost use Rattle.rules.specs.Find.{union};
ghost use Rattle.terms.specs.Sets.{holds};
ghost use Rattle.state.specs.Boards.{records_of, SameBoard, OnlyFacts, OnlyHyps, EnterAs, Words, HypPutAs};
ghost use Rattle.state.specs.Held.{records};
ghost use Rattle.state.specs.Records.{fact_rows, fact_feet};
ghost use Rattle.state.specs.Rows.{cell, FactAt, hyps_span, premises_span, general_span, plain_row, Putting, RoomAs};

use crate::board::Board;
use crate::sizes::Sizes;
use cells::Span;
use facts::{Fact, append, fact_at, judgment_of};
use questions::Row;
use rules::{FACTWORDS, RULEWORDS};
use terms::sets::{count, union_into, write_out};

// Whether fact i is there: every look-up of a named fact asks this.
pub fn is_fact(n: Sizes, i: usize) -> bool
    ensures { result ≡ ltb i n.facts }
{
    i < n.facts
}

// That the fact is there (`FactAt`) stands in each contract, and no type says it: what is promised is a cell of row i of the whole table, so that a record
// in the place of table and number would have lost its row. A number that carries its own test is no plainer: numbers of facts are read from the entries of
// lists, plain cells that C lends, and each would be tested again there, where what the tables stand for has said already that the fact is there.

// The judgment of fact i. This and `is_assumed` call those of `facts`: what is promised here is a cell of the row, for whoever speaks of the definition.
pub fn judgment(facts: &[Fact], i: usize) -> usize
    requires { FactAt (fact_rows facts.now) i }
    ensures { result ≡ cell 6 (fact_rows facts.now) i 0 }
{
    judgment_of(facts, i) as usize
}

// Whether fact i is a hypothesis.
pub fn is_assumed(facts: &[Fact], i: usize) -> bool
    requires { FactAt (fact_rows facts.now) i }
    ensures { result ≡ not (eqb (cell 6 (fact_rows facts.now) i 1) 0) }
{
    facts::is_assumed(facts[i])
}

// Whether it is one without premises and generalised variables.
pub fn is_plain(facts: &[Fact], i: usize) -> bool
    requires { FactAt (fact_rows facts.now) i }
    ensures { result ≡ plain_row (fact_rows facts.now) i }
{
    let f = &facts[i];
    f.assumed != 0 && f.premises == 0 && f.general == 0
}

// The entries of fact i's hypotheses. This one, `premises` and `general` read fields of a record: one function over a place would say less plainly which
// field it is.
pub fn hyps(facts: &[Fact], i: usize) -> Span
    requires { FactAt (fact_rows facts.now) i }
    ensures { result ≡ hyps_span (fact_rows facts.now) i }
{
    let f = &facts[i];
    let from = f.first as usize;
    Span {
        from,
        end: from + f.hyps as usize,
    }
}

// The entries of its premises; a function of its own, as `hyps` is.
pub fn premises(facts: &[Fact], i: usize) -> Span
    requires { FactAt (fact_rows facts.now) i }
    ensures { result ≡ premises_span (fact_rows facts.now) i }
{
    let f = &facts[i];
    let from = f.first as usize + f.hyps as usize;
    Span {
        from,
        end: from + f.premises as usize,
    }
}

// The entries of its generalised variables; a function of its own, as `hyps` is.
pub fn general(facts: &[Fact], i: usize) -> Span
    requires { FactAt (fact_rows facts.now) i }
    ensures { result ≡ general_span (fact_rows facts.now) i }
{
    let f = &facts[i];
    let from = f.first as usize + f.hyps as usize + f.premises as usize;
    Span {
        from,
        end: from + f.general as usize,
    }
}

// The footing of fact i joins the set.
pub fn join_footing(facts: &[Fact], i: usize, set: &mut [u64; RULEWORDS])
    requires { FactAt (fact_rows facts.now) i }
    ensures { holds set.new ≡ union (holds set.old) (holds (take RULEWORDS (drop (RULEWORDS * i) (fact_feet facts.now)))) }
{
    union_into(set, &fact_at(facts, i).footing);
}

// Where the entries of one fact more end, so many of them, or the row that has no room, that of the facts first. Whoever writes entries before the fact is
// put asks it too.
pub fn room(n: Sizes, many: usize) -> Result<usize, Row>
    requires { n.entries ≤ ENTRIES }
    ensures { RoomAs n many result }
{
    if n.facts >= rules::FACTS {
        return Err(Row::Facts);
    }
    if rules::ENTRIES - n.entries < many {
        return Err(Row::Entries);
    }
    Ok(n.entries + many)
}

impl Board<'_> {
    // A derived fact behind the others: its record with its footing, its hypotheses by rising number; or the row that has no room.
    pub fn put_derived(
        &mut self,
        judgment: usize,
        hyps: &[u64; FACTWORDS],
        footing: &[u64; RULEWORDS],
    ) -> Result<(), Row>
        requires { Putting (records_of self.old) self.old.n judgment }
        ensures same_board { SameBoard self.old self.new }
        ensures only { OnlyFacts self.old self.new }
        ensures enter_as { EnterAs self.old self.new judgment hyps.now footing.now result }
        ensures words { Words footing.now × (length footing.now ≡ RULEWORDS) }
    {
        let n = self.n;
        let many = count(hyps);
        let end = room(n, many)?;
        let from = n.entries;
        let fact = Fact {
            judgment: judgment as u32,
            assumed: 0,
            first: from as u32,
            hyps: many as u32,
            premises: 0,
            general: 0,
            footing: *footing,
        };
        append(self.facts, n.facts, fact);
        write_out(hyps, &mut self.lists[from..]);
        self.n.facts += 1;
        self.n.entries = end;
        Ok(())
    }

    // A hypothesis behind the others, which rests on itself and on no rule, so that its footing stays zero; so many premises and generalised variables
    // stand behind its own entry already, as far as there is room.
    pub fn put_hypothesis(
        &mut self,
        judgment: usize,
        premises: usize,
        general: usize,
    ) -> Result<(), Row>
        requires { ((footings : List ℕ) × Putting (records (fact_rows self.old.facts.now) footings self.old.lists.now) self.old.n judgment) × (premises + general < 2 ^ 32) }
        ensures same_board { SameBoard self.old self.new }
        ensures only { OnlyHyps self.old self.new }
        ensures put_as { (footings : List ℕ) → length footings ≡ RULEWORDS * FACTS → HypPutAs self.old self.new footings judgment premises general result }
    {
        let n = self.n;
        let end = room(n, 1 + premises + general)?;
        let i = n.facts;
        let from = n.entries;
        let fact = Fact {
            judgment: judgment as u32,
            assumed: 1,
            first: from as u32,
            hyps: 1,
            premises: premises as u32,
            general: general as u32,
            footing: self.facts[i].footing,
        };
        append(self.facts, i, fact);
        self.lists[from] = i as u32;
        self.n.facts += 1;
        self.n.entries = end;
        Ok(())
    }
}
