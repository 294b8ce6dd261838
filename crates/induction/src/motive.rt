// What an induction is about, and what its cases assume.

// The variable, its sort, and the statement: a judgment from premises, by their numbers.
#[derive(Clone, Copy)]
pub struct Motive<'a> {
    pub x: usize,
    pub sort: usize,
    pub judgment: usize,
    pub premises: &'a [u32],
}

// The induction hypotheses of a case, rows of `width` premises and a judgment behind them, by their numbers.
#[derive(Clone, Copy)]
pub struct Rows<'a> {
    pub cells: &'a [u32],
    pub width: usize,
}
