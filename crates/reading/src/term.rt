// Terms and judgments: questions 22 and 23. What is read comes into the store on the way, each argument before its term. Counts and sorts are asked
// behind the arguments, of which those beyond the sixteenth are made as well.
ghost use Rattle.std.specs.Prelude.{◌≡◌, true, false, ℕ, List, ◌&&◌, ◌+◌, ◌<◌, eqb, ltb, length, get_or, set, drop};
ghost use Rattle.rules.specs.Limits.{SYMBOLS, ARGUMENTS, TERMS, NODE};
ghost use Rattle.rules.specs.Lex.{letters};
ghost use Rattle.rules.specs.Out.{found};
ghost use Rattle.rules.specs.Sexp.{atom, list};
ghost use Rattle.rules.specs.Store.{keep};
ghost use Rattle.rules.specs.Theory.{Theory, inputs as inputs_of};
ghost use Rattle.rules.specs.State.{State, sort_of, abbreviated};
ghost use Rattle.rules.specs.Read.{named, term, terms, compound, term_of, judgment};
ghost use Rattle.terms.specs.Table.{tree, tree_at, Node};
ghost use Rattle.terms.specs.Lent.{GoodStore, SameTables, made_of, terms_made};
ghost use Rattle.kernel.specs.Held.{SymbolsHeld};
ghost use Rattle.kernel.specs.Readers.{KnownInput};
ghost use Rattle.reading.specs.Lent.{ReadsTermIn, ReadsDefsIn, ReadsNamesIn, ReadsAtomIn, ReadsItemIn, ReadsItemsIn, OpensIn, TypedIn, OpenedIn};
ghost use Rattle.reading.specs.Answers.{ReadAs, TypedAs, ArgumentsAs};

use crate::lists::put_within;
use crate::reader::Reader;
use kernel::atoms::marked;
use kernel::names::SymbolTable;
use questions::Question;
use rules::NODE;
use sexp::items::Item;
use sexp::{items, lex};
use state::defs::def_named;
use state::vars::var_sort;
use terms::heads::Head;
use terms::store::{Store, Terms};

// A term's number, and its sort.
#[derive(Clone, Copy, Debug, PartialEq, Eq)]
pub struct Typed {
    pub term: usize,
    pub sort: usize,
}

// The node comes into the store, as a term of that sort.
fn keep_typed(store: &mut Store<'_>, node: &[u32], sort: usize) -> Result<Typed, Question>
    requires { GoodStore store.old × Node store.old.mark.terms node.now }
    ensures same_tables { SameTables store.old store.new }
    ensures typed_as { (S : State) → sort ≡ sort_of S.theory S.vars (tree_at (made_of store.old) node.now) →
        TypedAs store.old store.new S (keep (tree_at (made_of store.old) node.now) (made_of store.old)) result }
{
    let term = store.keep(node)?;
    Ok(Typed { term, sort })
}

// The head of a node.
fn put_head(node: &mut [u32], c: usize)
    requires { (length node.old ≡ NODE) × (c < SYMBOLS) }
    ensures { node.new ≡ set node.old 0 c }
{
    node[0] = c as u32;
}

// Argument k of a node, as far as it has room.
fn put_argument(node: &mut [u32], k: usize, t: usize)
    requires { (length node.old ≡ NODE) × (t < TERMS) }
    ensures { node.new ≡ elim (ltb k ARGUMENTS) [ true ↦ set node.old (k + 1) t | false ↦ node.old ] }
{
    put_within(&mut node[1..], k, t);
}

// Whether symbol c, which takes `count` arguments, takes a term of that sort as argument k.
fn takes(known: &SymbolTable<'_>, c: usize, count: usize, k: usize, sort: usize) -> bool
    requires { k < count → KnownInput known.now.inputs.now c k }
    ensures { (T : Theory) (text symbols : List ℕ) (many : ℕ) → SymbolsHeld text symbols known.now.inputs.now many T.symbols → c < many →
        count ≡ length (inputs_of T c) → result ≡ ltb k count && eqb sort (get_or (inputs_of T c) k 0) }
{
    k < count && sort == known.input(c, k)
}

impl Reader<'_> {
    // The sort of a term of the store; 0 for a judgment, the definition's own number for that: sorts are numbered from 1 on.
    pub fn sort_of(&self, terms: &Terms<'_>, id: usize) -> usize
        requires { ReadsTermIn self.now terms.now id }
        ensures { (g : ReadsTermIn self.now terms.now id) → result ≡ sort_of g.S.theory g.S.vars (tree terms.now.index.now terms.now.words.now g.mark id) }
    {
        match Head::from(terms.node(id)[0]) {
            // by hand: `output` asks that the theory has the symbol, which is not asked here
            Head::Symbol(c) => self.symbols[4 * c] as usize,
            Head::Variable(v) => var_sort(self.vars, v),
        }
    }

    // The term that a marked atom abbreviates.
    fn abbreviation(&self, terms: &Terms<'_>, name: &[u8]) -> Result<Typed, Question>
        requires { ReadsDefsIn self.now terms.now }
        ensures { (g : ReadsDefsIn self.now terms.now) → TypedIn terms.now g.S (found 22 (abbreviated g.S.defs name.now) (terms_made terms.now)) result }
    {
        let found = def_named(self.text, self.defs, self.n.defs, name);
        let term = found.ok_or(Question::Spelling)?;
        let sort = self.sort_of(terms, term);
        Ok(Typed { term, sort })
    }

    // The variable of that name, or else the constructor without arguments.
    fn named(&self, store: &mut Store<'_>, name: &[u8]) -> Result<Typed, Question>
        requires { ReadsNamesIn self.now store.old }
        ensures same_tables { SameTables store.old store.new }
        ensures typed_as { (g : ReadsNamesIn self.now store.old) → TypedAs store.old store.new g.S (named g.S name.now (made_of store.old)) result }
    {
        if let Some(v) = self.var_table().named(name) {
            let term = store.keep_var(v)?;
            let sort = var_sort(self.vars, v);
            return Ok(Typed { term, sort });
        }
        let known = self.symbol_table();
        let c = known.constructor_named(name).ok_or(Question::Spelling)?;
        if known.arity(c) != 0 {
            return Err(Question::Sorting);
        }
        let node = [c as u32];
        keep_typed(store, &node, known.output(c))
    }

    // The term that the atom at a place spells.
    fn atomic(&self, store: &mut Store<'_>, start: usize) -> Result<Typed, Question>
        requires { ReadsAtomIn self.now store.old start }
        ensures same_tables { SameTables store.old store.new }
        ensures typed_as { (g : ReadsAtomIn self.now store.old start) →
            TypedAs store.old store.new g.S (term g.S (atom start (letters (drop start self.now.text.now))) (made_of store.old)) result }
    {
        let name = lex::atom(self.text, start);
        if marked(self.text, start) {
            return self.abbreviation(&store.terms(), name);
        }
        self.named(store, name)
    }

    // The term that the first item spells. An atom is wanted by its place too, so that with `items::list` the item would be looked at twice.
    #[cycle(arguments_compound_term)]
    pub fn term(&self, store: &mut Store<'_>, cells: &[u32]) -> Result<Typed, Question>
        requires { ReadsItemIn self.now store.old cells.now }
        ensures same_tables { SameTables store.old store.new }
        ensures typed_as { (g : ReadsItemIn self.now store.old cells.now) → TypedAs store.old store.new g.S (term g.S g.x (made_of store.old)) result }
    {
        match items::item_at(cells, 0) {
            Item::Atom(start) => self.atomic(store, start),
            Item::List(a, b) => self.compound(store, &cells[a..b]),
        }
    }

    // The constructor that the items of a list begin with; it has arguments.
    fn constructor_first(&self, cells: &[u32]) -> Result<usize, Question>
        requires { OpensIn self.now cells.now }
        ensures { (g : OpensIn self.now cells.now) → OpenedIn self.now cells.now g.S (compound g.S g.xs) result }
    {
        let name = items::head(self.text, cells).ok_or(Question::Spelling)?;
        let known = self.symbol_table();
        let c = known.constructor_named(name).ok_or(Question::Spelling)?;
        if cells.len() == 1 {
            return Err(Question::Sorting);
        }
        Ok(c)
    }

    // The predicate that the items of a list begin with.
    fn predicate_first(&self, cells: &[u32]) -> Result<usize, Question>
        requires { OpensIn self.now cells.now }
        ensures { (g : OpensIn self.now cells.now) → OpenedIn self.now cells.now g.S (judgment g.S (list g.xs)) result }
    {
        let name = items::head(self.text, cells).ok_or(Question::Spelling)?;
        self.symbol_table()
            .predicate_named(name)
            .ok_or(Question::Spelling)
    }

    // The constructor over its arguments that the items of a list spell.
    #[cycle(arguments_compound_term)]
    fn compound(&self, store: &mut Store<'_>, cells: &[u32]) -> Result<Typed, Question>
        requires { ReadsItemsIn self.now store.old cells.now }
        ensures same_tables { SameTables store.old store.new }
        ensures typed_as { (g : ReadsItemsIn self.now store.old cells.now) → TypedAs store.old store.new g.S (compound g.S g.xs (made_of store.old)) result }
    {
        let c = self.constructor_first(cells)?;
        // as long as the longest node: no heap, and the core stands on `std` alone, which has no vector without one
        let mut node = [0u32; NODE];
        let len = self.arguments(store, &cells[1..], c, &mut node)?;
        keep_typed(store, &node[..len], self.symbol_table().output(c))
    }

    // The terms that the items spell, as the arguments of symbol c. They must be as many as its inputs and each of its sort: then the node is that of c
    // over them, and what is answered is how long it is.
    #[cycle(arguments_compound_term)]
    fn arguments(
        &self,
        store: &mut Store<'_>,
        cells: &[u32],
        c: usize,
        node: &mut [u32],
    ) -> Result<usize, Question>
        requires { ReadsItemsIn self.now store.old cells.now × (c < self.now.n.symbols) × (length node.old ≡ NODE) }
        ensures same_tables { SameTables store.old store.new }
        ensures arguments_as { (g : ReadsItemsIn self.now store.old cells.now) →
            ArgumentsAs store.old store.new g.S c node.new (terms g.S g.xs (made_of store.old)) result }
    {
        let known = self.symbol_table();
        let count = known.arity(c);
        put_head(node, c);
        let mut fits = true;
        for (k, item) in items::all(cells).enumerate() {
            let typed = self.term(store, item)?;
            put_argument(node, k, typed.term);
            fits &= takes(&known, c, count, k, typed.sort);
        }
        if !fits || items::count(cells) != count {
            return Err(Question::Sorting);
        }
        Ok(count + 1)
    }

    // The term of that sort that the first item spells.
    pub fn term_of(
        &self,
        store: &mut Store<'_>,
        cells: &[u32],
        sort: usize,
    ) -> Result<usize, Question>
        requires { ReadsItemIn self.now store.old cells.now }
        ensures same_tables { SameTables store.old store.new }
        ensures read_as { (g : ReadsItemIn self.now store.old cells.now) → ReadAs store.old store.new (term_of g.S g.x sort (made_of store.old)) result }
    {
        let typed = self.term(store, cells)?;
        if typed.sort != sort {
            return Err(Question::Sorting);
        }
        Ok(typed.term)
    }

    // The judgment that the first item spells.
    pub fn judgment(&self, store: &mut Store<'_>, cells: &[u32]) -> Result<usize, Question>
        requires { ReadsItemIn self.now store.old cells.now }
        ensures same_tables { SameTables store.old store.new }
        ensures read_as { (g : ReadsItemIn self.now store.old cells.now) → ReadAs store.old store.new (judgment g.S g.x (made_of store.old)) result }
    {
        let inner = items::list(cells, 0).ok_or(Question::Spelling)?;
        let p = self.predicate_first(inner)?;
        // an array, as in `compound`
        let mut node = [0u32; NODE];
        let len = self.arguments(store, &inner[1..], p, &mut node)?;
        Ok(store.keep(&node[..len])?)
    }
}
