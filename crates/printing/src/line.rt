// The line of an answer, as document 01 has it; its end is not part of it.
ghost use Rattle.std.specs.Prelude.{Some};
ghost use Rattle.printing.specs.Lines.{line_text};

use running::finish::Report;
use running::refusal::Refusal;
use std::fmt;

#[derive(Clone, Copy)]
pub struct Line(pub Result<Report, Refusal>);

impl fmt::Display for Line {
    ghost output = { λ l. Some (line_text l.0) };

    fn fmt<W: fmt::Write>(&self, f: &mut fmt::Formatter<W>) -> fmt::Result {
        match self.0 {
            Ok(r) => write!(
                f,
                "(accepted {} {} {} {} {} {} {})",
                r.steps,
                r.goals,
                r.open_goals,
                r.counts.hypotheses,
                r.counts.inductions,
                r.counts.inversions,
                r.counts.instances
            ),
            Err(r) => write!(
                f,
                "(refused {} {} {} {})",
                r.number(),
                r.text(),
                r.form(),
                r.detail()
            ),
        }
    }
}
