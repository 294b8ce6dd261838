// The premises of a rule: the judgments that the items of a list spell, one behind the other.
ghost use Rattle.rules.specs.Sexp.{Sexps};
ghost use Rattle.rules.specs.Theory.{Theory};
ghost use Rattle.rules.specs.Declare.{Reading, judgments};
ghost use Rattle.rules.specs.TheoryTables.{prefixes};
ghost use Rattle.sexp.specs.Items.{Holds};
ghost use Rattle.kernel.specs.Reading.{SameTables, Knows, ReadTo, PartRead, PartAt};

use crate::patterns::RuleReader;
use questions::Question;
use sexp::items;

impl RuleReader<'_, '_> {
    pub fn premises(&mut self, cells: &[u32]) -> Result<(), Question>
        requires { PartAt self.old cells.now }
        ensures same_tables { SameTables self.old self.new }
        ensures read { (T : Theory) (R : Reading) (zs : Sexps) → Knows self.old.known T.symbols → ReadTo self.old R →
            Holds self.old.known.text.now cells.now zs →
            PartRead prefixes self.old self.new (judgments T zs R) result }
    {
        for item in items::all(cells) {
            let inner = items::list(item, 0).ok_or(Question::Declared)?;
            self.judgment(inner)?;
        }
        Ok(())
    }
}
