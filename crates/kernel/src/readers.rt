// Reading the table of symbols: a symbol's signature by its number, and the constructors of a sort one after the other, or how many.
// Here and in `rule_readers` a cell is read by its place, `4 * c + 1`, and not off rows `[[u32; 4]]`: the tables are C's cells, which are written too, and behind
// `as_chunks_mut` nothing is known of what was written (`tabled` tried it). `arity` by `as_chunks::<4>()` was tried: it proves, with a law more, and each
// reader would cut the rows anew before it reads one cell, which is no plainer.
ghost use Rattle.std.specs.Prelude.{◌≡◌, ◌*◌, ◌^◌, ◌<◌, eqb, length, get_or};
ghost use Rattle.rules.specs.Theory.{inputs as inputs_of, output as output_of, constructors as constructors_of};
ghost use Rattle.kernel.specs.Lent.{OfSymbol, OfInputs, OfSymbols};
ghost use Rattle.kernel.specs.Readers.{KnownSymbol, KnownInput, KnownInputs, CountedSymbols};
ghost use Rattle.kernel.specs.Listing.{next_constructor};

use crate::names::SymbolTable;

impl<'a> SymbolTable<'a> {
    // How many arguments symbol c takes; `arity_of` of `terms` asks the same of symbols without a theory, this one speaks of the theory.
    pub fn arity(&self, c: usize) -> usize
        requires { KnownSymbol self.now.rows.now c }
        ensures { OfSymbol self.now c (λ T. result ≡ length (inputs_of T c)) }
    {
        self.rows[4 * c + 1] as usize
    }

    // The sort of the terms of constructor c; 0 where c is a predicate. No `Option`: 0 is the definition's own number for no sort (they begin at 1),
    // and who asks compares it with a sort.
    pub fn output(&self, c: usize) -> usize
        requires { KnownSymbol self.now.rows.now c }
        ensures { OfSymbol self.now c (λ T. result ≡ output_of T c) }
    {
        self.rows[4 * c] as usize
    }

    // The sort of argument k of symbol c.
    pub fn input(&self, c: usize, k: usize) -> usize
        requires { KnownInput self.now.inputs.now c k }
        ensures small { result < 2 ^ 32 }
        ensures sort { OfInputs self.now c (λ T. k < length (inputs_of T c) → result ≡ get_or (inputs_of T c) k 0) }
    {
        self.inputs[rules::ARGUMENTS * c + k] as usize
    }

    // The sorts of all arguments of symbol c; `many` is how many it takes.
    pub fn inputs(&self, c: usize, many: usize) -> &'a [u32]
        requires { KnownInputs self.now.inputs.now c many }
        ensures { OfInputs self.now c (λ T. many ≡ length (inputs_of T c) → result.now ≡ inputs_of T c) }
    {
        let from = rules::ARGUMENTS * c;
        &self.inputs[from..from + many]
    }

    // Whether the terms of symbol s are of that sort.
    fn gives(&self, s: usize, sort: usize) -> bool
        requires { 4 * s < length self.now.rows.now }
        ensures { result ≡ eqb (get_or self.now.rows.now (4 * s) 0) sort }
    {
        self.rows[4 * s] as usize == sort
    }

    // The first constructor of that sort whose number is `from` or greater. No iterator: `induct_cases` goes over items, and takes a constructor for each.
    pub fn next_constructor(&self, sort: usize, from: usize) -> Option<usize>
        requires { CountedSymbols self.now.rows.now self.now.count }
        ensures { OfSymbols self.now (λ T. result ≡ next_constructor T sort from) }
    {
        (from..self.count).find(|c| self.gives(*c, sort))
    }

    // How many constructors that sort has.
    pub fn constructors(&self, sort: usize) -> usize
        requires { CountedSymbols self.now.rows.now self.now.count }
        ensures { OfSymbols self.now (λ T. result ≡ length (constructors_of T sort)) }
    {
        // a row is four cells, the output first
        let (rows, _) = self.rows[..4 * self.count].as_chunks::<4>();
        rows.iter().filter(|row| row[0] as usize == sort).count()
    }
}
