// The bytes of names: whether two are equal, the index that a name spells, and the first row of a table that holds a name.
ghost use Rattle.std.specs.Prelude.{◌≡◌, ◌<◌, List};
ghost use Rattle.rules.specs.Text.{same};
ghost use Rattle.rules.specs.Index.{unsigned, index_of};
ghost use Rattle.rules.specs.Find.{first};
ghost use Rattle.rules.specs.Sexp.{Name};
ghost use Rattle.sexp.specs.NameRows.{NameRows, SomeNames};

use cells::span_at;

// Whether two names have the same bytes. Names of one tariff often share their beginnings, so the last bytes are looked at first: with the first ones first, a
// theory of 512 such names takes 2.3 times the instructions, with `s == t` 16 % more, whether beginnings are shared or not.
pub fn same(s: &[u8], t: &[u8]) -> bool
    ensures { result ≡ same s.now t.now }
{
    if s.len() != t.len() {
        return false;
    }
    s.iter().rev().zip(t.iter().rev()).all(|(a, b)| a == b)
}

// The value of an index without a sign: digits, at least one, of a value that fits. With a `+` or not the library's `parse` reads just that, but of a `str`:
// each name would be asked first whether its bytes are UTF-8, which takes twice the instructions in all.
fn unsigned(digits: &[u8]) -> Option<usize>
    ensures { result ≡ unsigned digits.now }
{
    if digits.is_empty() {
        return None;
    }
    let mut n: usize = 0;
    for digit in digits {
        if !digit.is_ascii_digit() {
            return None;
        }
        let tens = n.checked_mul(10)?;
        n = tens.checked_add(usize::from(digit - b'0'))?;
    }
    Some(n)
}

// The index that a name spells, after a `+` or not.
pub fn index_of(name: &[u8]) -> Option<usize>
    ensures { result ≡ index_of name.now }
{
    unsigned(name.strip_prefix(b"+").unwrap_or(name))
}

// The number of the first of `count` rows whose name has these bytes: rows of `width` cells with the name from `place` on. No struct for what is before the
// name: each caller asks one question of its own table, and would write its five fields, a line each, for that one call.
pub fn named(
    text: &[u8],
    table: &[u32],
    width: usize,
    place: usize,
    count: usize,
    name: &[u8],
) -> Option<usize>
    requires { SomeNames text.now table.now width place count }
    ensures { (ns : List Name) → NameRows text.now table.now width place count ns →
        result ≡ first (λ n. same n.bytes name.now) ns 0 }
{
    // an index and no `chunks_exact`: the rows may begin anywhere in the table, so that `place` lies behind the end of a chunk, and the last may be short
    (0..count).find(|i| {
        let span = span_at(table, width * *i + place);
        same(span.of(text), name)
    })
}
