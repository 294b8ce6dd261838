// Indices, earlier facts and variables: an item that is an atom, looked up by its bytes.
ghost use Rattle.std.specs.Prelude.{◌≡◌, List};
ghost use Rattle.rules.specs.Sexp.{Sexp, Sexps, cons};
ghost use Rattle.rules.specs.State.{Var};
ghost use Rattle.sexp.specs.Items.{Holds};
ghost use Rattle.reading.specs.Items.{FirstItem, index_in, variable_in};
ghost use Rattle.reading.specs.Earlier.{EarlierAs};
ghost use Rattle.reading.specs.Lent.{SomeVarsIn, VarsHeldIn};

use crate::reader::Reader;
use questions::Question;
use sexp::items;
use sexp::names::index_of;
use state::recorded::is_fact;

// The index that the first item spells.
pub fn index(text: &[u8], cells: &[u32]) -> Option<usize>
    requires { FirstItem text.now cells.now }
    ensures { (x : Sexp) (ys : Sexps) → Holds text.now cells.now (cons x ys) → result ≡ index_in x }
{
    let name = items::head(text, cells)?;
    index_of(name)
}

impl Reader<'_> {
    // The earlier fact that the first item numbers.
    pub fn earlier(&self, cells: &[u32]) -> Result<usize, Question>
        requires { FirstItem self.now.text.now cells.now }
        ensures { EarlierAs self.now cells.now result }
    {
        let n = self.n;
        index(self.text, cells)
            .filter(|i| is_fact(n, *i))
            .ok_or(Question::Earlier)
    }

    // The variable that the first item names.
    pub fn variable(&self, cells: &[u32]) -> Option<usize>
        requires { FirstItem self.now.text.now cells.now × SomeVarsIn self.now }
        ensures { (vs : List Var) (x : Sexp) (ys : Sexps) → VarsHeldIn self.now vs → Holds self.now.text.now cells.now (cons x ys) → result ≡ variable_in vs x }
    {
        let name = items::head(self.text, cells)?;
        self.var_table().named(name)
    }
}
