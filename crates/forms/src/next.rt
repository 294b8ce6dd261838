// The index that a form of the proof gives its own fact, which must be the next: questions 31 and 32.
ghost use Rattle.rules.specs.Forms.{next};
ghost use Rattle.forms.specs.Next.{OwnIndex, NextAs};

use questions::Question;
use reading::names::index;
use sexp::items;
use state::sizes::Sizes;

// That the index of the form, whose items the cells hold, is the next.
pub fn next_index(text: &[u8], cells: &[u32], n: Sizes) -> Result<(), Question>
    requires { OwnIndex text.now cells.now n }
    ensures { (g : OwnIndex text.now cells.now n) → NextAs g.S (next g.xs g.S) result }
{
    let i = index(text, items::from(cells, 1)).ok_or(Question::Index)?;
    if i != n.facts {
        return Err(Question::NextIndex);
    }
    Ok(())
}
