// The answer to three texts, with tables that nobody else sees.
ghost use Rattle.std.specs.Prelude.{◌≡◌};
ghost use Rattle.rules.specs.Check.{check};
ghost use Rattle.running.specs.Finished.{answer_of};

use crate::tables::Tables;
use running::finish::Report;
use running::refusal::Refusal;
use running::texts::Texts;

pub fn answer(texts: &Texts<'_>) -> Result<Report, Refusal>
    ensures { answer_of result ≡ (check texts.now.theory.now texts.now.goals.now texts.now.proof.now).answer }
{
    Tables::new().check(texts)
}
