// How many facts are recorded. Each form of the proof that was taken stored a fact, a variable, an abbreviation or a goal's result, and no two of them.
ghost use Rattle.std.specs.Prelude.{◌≤◌};
ghost use Rattle.rules.specs.Limits.{FACTS};

use crate::checked::Checked;
use crate::names::text_in;
use questions::Text;
use rules::FACTS;
use running::refusal::Refusal;

impl Checked<'_> {
    // 0 in a cell is none: docs/TABLES.md
    pub fn recorded(&self) -> usize
        ensures { result ≤ FACTS }
    {
        let facts = match self.answer {
            Ok(r) => r.steps,
            Err(Refusal::Stopped(stopped)) if stopped.text == Text::Proof => {
                let vars = self
                    .vars
                    .iter()
                    .filter(|[_, text, ..]| text_in(*text) == Some(Text::Proof))
                    .count();
                let defs = self.defs.iter().filter(|[_, end, _]| *end != 0).count();
                let taken = self.rows.iter().filter(|[.., taken]| *taken != 0).count();
                stopped
                    .refused
                    .form
                    .saturating_sub(vars)
                    .saturating_sub(defs)
                    .saturating_sub(taken)
            }
            Err(_) => 0,
        };
        facts.min(FACTS)
    }
}
