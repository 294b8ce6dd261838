// What is recorded, each on its line: facts `(fact INDEX JUDGMENT (HYPOTHESES...) ASSUMED (PREMISES...) (GENERALISED...))`, the rules that each rests on
// `(footing INDEX RULE...)`, and 53's list, `(missing [N N ..])`.
use crate::checked::Checked;
use crate::spelling::Spelling;
use facts::Fact;
use rules::{RULES, RULEWORDS};
use std::io::{self, Write};
use terms::sets::has;

// The entries of a list as the closure writes each, one space between two of them.
fn write_list<W: Write, F: FnMut(u32, &mut W) -> io::Result<()>>(
    list: &[u32],
    out: &mut W,
    mut each: F,
) -> io::Result<()>
    requires { F.IsAlwaysCallable each }
{
    for (i, entry) in list.iter().enumerate() {
        if 0 < i {
            write!(out, " ")?;
        }
        each(*entry, out)?;
    }
    Ok(())
}

fn write_number<W: Write>(n: u32, out: &mut W) -> io::Result<()> {
    write!(out, "{n}")
}

// The first so many entries, and those behind them.
fn cut(entries: &[u32], many: u32) -> (&[u32], &[u32]) {
    entries.split_at(entries.len().min(many as usize))
}

impl<'a> Checked<'a> {
    fn write_fact<W: Write>(
        &self,
        k: usize,
        fact: &Fact,
        spelling: &mut Spelling<'a>,
        out: &mut W,
    ) -> io::Result<()> {
        let entries = self.lists.get(fact.first as usize..).unwrap_or(&[]);
        let (hyps, entries) = cut(entries, fact.hyps);
        let (premises, entries) = cut(entries, fact.premises);
        let (general, _) = cut(entries, fact.general);
        write!(out, "(fact {k} ")?;
        self.write_term(fact.judgment, spelling, out)?;
        write!(out, " (")?;
        write_list(hyps, out, write_number)?;
        write!(out, ") {} (", fact.assumed)?;
        write_list(
            premises,
            out,
            |term, out| self.write_term(term, spelling, out),
        )?;
        write!(out, ") (")?;
        write_list(general, out, |v, out| {
            write!(out, "{}", self.variable_name(v as usize))
        })?;
        writeln!(out, "))")
    }

    // A bit of the words is a rule.
    fn write_footing<W: Write>(
        &self,
        k: usize,
        words: &[u64; RULEWORDS],
        out: &mut W,
    ) -> io::Result<()> {
        write!(out, "(footing {k}")?;
        for r in (0..RULES).filter(|r| has(words, *r)) {
            write!(out, " {}", self.rule_name(r))?;
        }
        writeln!(out, ")")
    }

    // The list ends with its first 0.
    fn write_missing<W: Write>(&self, out: &mut W) -> io::Result<()> {
        let goals = self.missing.split(|n| *n == 0).next().unwrap_or(&[]);
        write!(out, "(missing [")?;
        write_list(goals, out, write_number)?;
        writeln!(out, "])")
    }

    // It fails only where `out` does. Not drawn into its callers, which would hold the stack of what waits during the check too.
    #[inline(never)]
    pub fn write_recorded<W: Write>(&self, out: &mut W) -> io::Result<()> {
        let many = self.recorded();
        let mut spelling = Spelling::of(self);
        for (k, fact) in self.facts.iter().take(many).enumerate() {
            self.write_fact(k, fact, &mut spelling, out)?;
        }
        for (k, fact) in self.facts.iter().take(many).enumerate() {
            self.write_footing(k, &fact.footing, out)?;
        }
        self.write_missing(out)
    }
}
