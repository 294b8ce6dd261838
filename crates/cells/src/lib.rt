// Cells of tables as such: parts of them, set to zero, copied. Whoever means a part of a table lends that part.
#![tactic(auto)]

ghost use Rattle.std.specs.Prelude.{◌≡◌, ◌++◌, ◌+◌, ◌-◌, ◌<◌, ◌≤◌, length, get_or, take, drop, replicate};
ghost use Rattle.cells.specs.Cleared.{ClearedBy};

// What a table is made of: a cell of it, or a word of a set.
pub trait Cell: Copy {
    ghost ZERO: { Self };

    // in a table that holds nothing
    const ZERO: Self;
}

impl Cell for u32 {
    ghost ZERO = { 0 };

    const ZERO: u32 = 0;
}

impl Cell for u64 {
    ghost ZERO = { 0 };

    const ZERO: u64 = 0;
}

// A part of a table, or of a text: the first place, and the place behind the last.
#[derive(Clone, Copy, Debug, PartialEq, Eq)]
pub struct Span {
    pub from: usize,
    pub end: usize,
}

impl Span {
    // The part of a table, or of a text, that it names.
    pub fn of<'a, T>(&self, whole: &'a [T]) -> &'a [T]
        requires { (self.now.from ≤ self.now.end) × (self.now.end ≤ length whole.now) }
        ensures { result.now ≡ take (self.now.end - self.now.from) (drop self.now.from whole.now) }
    {
        &whole[self.from..self.end]
    }
}

// The part that two cells of a table give, the first of them at that place.
pub fn span_at(table: &[u32], at: usize) -> Span
    requires { at + 1 < length table.now }
    ensures { result ≡ record { from = get_or table.now at 0; end = get_or table.now (at + 1) 0 } }
{
    Span {
        from: table[at] as usize,
        end: table[at + 1] as usize,
    }
}

// Every cell becomes 0: a loop and no `fill`, which clones, and of a clone the trait would have to say that it cannot fail and is the same. Where `u32` or `u64`
// is known `fill(0)` would do; the name stays, since it says what is meant, and its one equation is what the proofs cite and where the edits bend it.
pub fn clear<T: Cell>(cells: &mut [T])
    ensures { cells.new ≡ replicate (length cells.old) T.ZERO }
{
    for cell in cells.iter_mut() {
        *cell = T::ZERO;
    }
}

// The answer of what was read into cells, zero before: where it is a refusal, they become zero again.
pub fn or_cleared<A, E, T: Cell>(answer: Result<A, E>, cells: &mut [T]) -> Result<A, E>
    ensures same { result ≡ answer }
    ensures cleared { ClearedBy T.ZERO answer cells.old cells.new }
{
    if answer.is_err() {
        clear(cells);
    }
    answer
}

// The cells of the other come into the first ones.
pub fn write(to: &mut [u32], from: &[u32])
    requires { length from.now ≤ length to.old }
    ensures { to.new ≡ from.now ++ drop (length from.now) to.old }
{
    for (i, cell) in from.iter().enumerate() {
        to[i] = *cell;
    }
}
