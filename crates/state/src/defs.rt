// The table of abbreviations: name, term.
ghost use Rattle.std.specs.Prelude.{◌≡◌, List, [], ◌∷◌, ℕ, ◌*◌, ◌<◌, length};
ghost use Rattle.std.proofs.lemmas.List.Edits.{sets};
ghost use Rattle.rules.specs.Limits.{DEFS};
ghost use Rattle.rules.specs.Store.{Made};
ghost use Rattle.rules.specs.State.{Def};
ghost use Rattle.state.specs.Held.{DefsHeld};
ghost use Rattle.state.specs.Rows.{Fits4, SomeDefs, DefFound};

use cells::Span;
use kernel::atoms::put_span;
use sexp::names::named;

// The term that these bytes abbreviate. No struct of text, table and count, as variables have it: this is the one question that is asked of them.
pub fn def_named(text: &[u8], defs: &[u32], count: usize, name: &[u8]) -> Option<usize>
    requires { SomeDefs text.now defs.now count }
    ensures { (M : Made) (ds : List Def) → DefsHeld text.now defs.now count M ds → DefFound M ds name.now result }
{
    named(text, defs, 3, 0, count, name).map(|i| defs[3 * i + 2] as usize)
}

// The row of abbreviation d; its name stands in the text from which it is read.
pub fn put_def(defs: &mut [u32], d: usize, name: Span, term: usize)
    requires { (length defs.old ≡ 3 * DEFS) × (d < DEFS) × Fits4 name.from name.end term 0 }
    ensures { defs.new ≡ sets defs.old (3 * d) (name.from ∷ name.end ∷ term ∷ []) }
{
    let at = 3 * d;
    put_span(defs, at, name);
    defs[at + 2] = term as u32;
}
