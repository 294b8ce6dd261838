// Whether an atom of the text is marked, and a span as two cells of a table.
ghost use Rattle.std.specs.Prelude.{◌≡◌, ◌<◌, [], ◌∷◌, length, drop};
ghost use Rattle.std.proofs.lemmas.List.Edits.{sets};
ghost use Rattle.rules.specs.Lex.{letters};
ghost use Rattle.rules.specs.Sexp.{marked};
ghost use Rattle.kernel.specs.Held.{NameFits};

use cells::Span;

// Whether the atom at a place starts with `?`.
pub fn marked(text: &[u8], start: usize) -> bool
    requires { start < length text.now }
    ensures { result ≡ marked (letters (drop start text.now)) }
{
    text[start] == b'?'
}

// The two cells of a span: of a name in a text, or of a rule's words; `cells::span_at` reads them.
pub fn put_span(table: &mut [u32], at: usize, span: Span)
    requires { NameFits (length table.old) at span.from span.end }
    ensures { table.new ≡ sets table.old at (span.from ∷ span.end ∷ []) }
{
    table[at] = span.from as u32;
    table[at + 1] = span.end as u32;
}
