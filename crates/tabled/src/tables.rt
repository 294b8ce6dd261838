// The tables of a check, each as long as named, for programs that hold no others.
ghost use Rattle.std.specs.Prelude.{◌≡◌};
ghost use Rattle.rules.specs.Check.{check};
ghost use Rattle.running.specs.Finished.{answer_of};
ghost use Rattle.running.specs.ReadBack.{Call};
ghost use Rattle.tabled.specs.Lending.{cells_of, Lends};

use beginning::lengths;
use facts::Fact;
use printing::checked::Checked;
use running::finish::Report;
use running::refusal::Refusal;
use running::texts::Texts;

#[derive(Drop)]
pub(crate) struct Tables {
    sorts: [u32; lengths::SORTS],
    symbols: [u32; lengths::SYMBOLS],
    inputs: [u32; lengths::INPUTS],
    rules: [u32; lengths::RULES],
    rulevars: [u32; lengths::RULEVARS],
    patterns: [u32; lengths::PATTERNS],
    vars: [u32; lengths::VARS],
    index: [u32; lengths::INDEX],
    words: [u32; lengths::WORDS],
    defs: [u32; lengths::DEFS],
    rows: [u32; lengths::ROWS],
    lists: [u32; lengths::LISTS],
    missing: [u32; lengths::MISSING],
    facts: [Fact; rules::FACTS],
}

impl Tables {
    pub(crate) fn new() -> Tables {
        Tables {
            sorts: [0; lengths::SORTS],
            symbols: [0; lengths::SYMBOLS],
            inputs: [0; lengths::INPUTS],
            rules: [0; lengths::RULES],
            rulevars: [0; lengths::RULEVARS],
            patterns: [0; lengths::PATTERNS],
            vars: [0; lengths::VARS],
            index: [0; lengths::INDEX],
            words: [0; lengths::WORDS],
            defs: [0; lengths::DEFS],
            rows: [0; lengths::ROWS],
            lists: [0; lengths::LISTS],
            missing: [0; lengths::MISSING],
            facts: [Fact::BLANK; rules::FACTS],
        }
    }

    // The answer is the definition's, and the tables are as a check leaves them, whatever stood there.
    pub(crate) fn check(&mut self, texts: &Texts<'_>) -> Result<Report, Refusal>
        ensures call { Call texts.now.theory.now texts.now.goals.now texts.now.proof.now (cells_of self.old) (cells_of self.new) (answer_of result) }
        ensures answer { answer_of result ≡ (check texts.now.theory.now texts.now.goals.now texts.now.proof.now).answer }
    {
        schematic::check(
            texts.theory,
            texts.goals,
            texts.proof,
            &mut self.sorts,
            &mut self.symbols,
            &mut self.inputs,
            &mut self.rules,
            &mut self.rulevars,
            &mut self.patterns,
            &mut self.vars,
            &mut self.index,
            &mut self.words,
            &mut self.defs,
            &mut self.rows,
            &mut self.facts,
            &mut self.lists,
            &mut self.missing,
        )
    }

    // What a check of these texts left, with this answer: what is told of it is read off these tables.
    pub(crate) fn view<'a>(
        &'a self,
        texts: Texts<'a>,
        answer: Result<Report, Refusal>,
    ) -> Checked<'a>
        ensures { Lends self.now texts.entry answer result }
    {
        Checked {
            texts,
            answer,
            symbols: self.symbols.as_chunks().0,
            rules: self.rules.as_chunks().0,
            vars: self.vars.as_chunks().0,
            index: &self.index,
            words: &self.words,
            defs: self.defs.as_chunks().0,
            rows: self.rows.as_chunks().0,
            lists: &self.lists,
            missing: &self.missing,
            facts: &self.facts,
        }
    }
}
