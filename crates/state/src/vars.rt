// The table of variables: sort, text, name. Those of the goals have their names in the goals, those of the proof in the text that is read; a made
// one has none.
ghost use Rattle.std.specs.Prelude.{◌≡◌, List, [], ◌∷◌, ℕ, ◌*◌, ◌^◌, ◌<◌, get_or};
ghost use Rattle.std.proofs.lemmas.List.Edits.{sets};
ghost use Rattle.rules.specs.Text.{same};
ghost use Rattle.rules.specs.State.{Var, var_named, no_var};
ghost use Rattle.state.specs.Rows.{cell, Fits4, SomeVarsIn, VarsIn, VarAt, text_cell};

use cells::{Span, span_at};
use kernel::atoms::put_span;
use questions::Text;
use sexp::names::same;

// The cell for the text in which a variable's name stands; a made variable has none, and 0 there.
fn text_cell(text: Option<Text>) -> usize
    ensures { result ≡ text_cell text }
{
    text.map_or(0, |text| text.number())
}

// The variables that there are, and the texts in which their names stand.
#[derive(Clone, Copy)]
pub struct VarTable<'a> {
    pub goals: &'a [u8],
    pub text: &'a [u8],
    pub rows: &'a [u32],
    pub count: usize,
}

impl VarTable<'_> {
    // Whether variable i has these bytes for a name.
    fn is_var(&self, i: usize, name: &[u8]) -> bool
        requires { SomeVarsIn self.now × (i < self.now.count) }
        ensures { (vs : List Var) → VarsIn self.now vs →
            result ≡ same (get_or vs i no_var).name.bytes name.now }
    {
        let at = 4 * i;
        let span = span_at(self.rows, at + 2);
        if self.rows[at + 1] as usize == Text::Goals.number() {
            return same(span.of(self.goals), name);
        }
        same(span.of(self.text), name)
    }

    // The variable with these bytes for a name.
    pub fn named(&self, name: &[u8]) -> Option<usize>
        requires { SomeVarsIn self.now }
        ensures { (vs : List Var) → VarsIn self.now vs →
            result ≡ var_named vs name.now }
    {
        (0..self.count).find(|i| self.is_var(*i, name))
    }
}

// The sort of variable v; 0 where there is none, the definition's own number for that: sorts are numbered from 1 on.
pub fn var_sort(vars: &[u32], v: usize) -> usize
    requires { VarAt vars.now v }
    ensures { result ≡ cell 4 vars.now v 0 }
{
    vars[4 * v] as usize
}

// The row of variable v. `text` is the number of the text in which its name stands (`Text::number`), or any other that fits into a cell; a variable that is
// made goes by `put_made_var`.
pub fn put_var_row(vars: &mut [u32], v: usize, sort: usize, text: usize, name: Span)
    requires { VarAt vars.old v × Fits4 sort text name.from name.end }
    ensures { vars.new ≡ sets vars.old (4 * v) (sort ∷ text ∷ name.from ∷ name.end ∷ []) }
{
    let at = 4 * v;
    vars[at] = sort as u32;
    vars[at + 1] = text as u32;
    put_span(vars, at + 2, name);
}

// The same, with the text in which the name stands: none for a variable that is made.
pub fn put_var(vars: &mut [u32], v: usize, sort: usize, text: Option<Text>, name: Span)
    requires { VarAt vars.old v × Fits4 sort name.from name.end 0 }
    ensures { vars.new ≡ sets vars.old (4 * v) (sort ∷ text_cell text ∷ name.from ∷ name.end ∷ []) }
{
    put_var_row(vars, v, sort, text_cell(text), name);
}

// The row of variable v, which was made: it has no name, and no text in which one stands.
pub fn put_made_var(vars: &mut [u32], v: usize, sort: usize)
    requires { VarAt vars.old v × (sort < 2 ^ 32) }
    ensures { vars.new ≡ sets vars.old (4 * v) (sort ∷ 0 ∷ 0 ∷ 0 ∷ []) }
{
    put_var_row(vars, v, sort, 0, Span { from: 0, end: 0 });
}
