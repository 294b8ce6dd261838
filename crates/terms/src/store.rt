// The store: the distinct terms made so far, numbered in the order made, in two tables (specs/Table.antt says how they stand for trees).
// A node is gathered by the caller, looked up by its bucket, and only a new one is written, behind the words that are used. No map of the
// library keeps them: there is no heap, and C lends the tables. A cell is 0 for none, or a number with 1 added.
ghost use Rattle.std.specs.Prelude.{◌≡◌, ◌-◌, ◌≤◌, ◌<◌, length};
ghost use Rattle.std.specs.Bool.{Decides};
ghost use Rattle.rules.specs.Limits.{TERMS, VARIABLES, WORDS};
ghost use Rattle.rules.specs.Tree.{is_open, var};
ghost use Rattle.rules.specs.Store.{keep};
ghost use Rattle.terms.specs.Table.{INDEX, BUCKETS, start, tree_at, node_at, hash, flag, Shaped, Node, settled};
ghost use Rattle.terms.specs.Node.{seek, Linked, Unlinked, Held, HeldIn, HeadIs, OpenIs};
ghost use Rattle.terms.specs.Lent.{GoodTerms, GoodStore, terms_made, terms_of, made_of, SameTables, KeptAs, PartIn, BackIn};

use crate::heads::Head;
use cells::clear;
use questions::Row;
use rules::{SYMBOLS, TERMS};

// The four parts of the index: ends, chains, flags, heads.
const CHAINS: usize = TERMS;

pub const FLAGS: usize = 2 * TERMS;

const HEADS: usize = 3 * TERMS;

// As many buckets as terms, each for so many values of the hash.
const SPREAD: usize = 4294967296 / TERMS;

// What is used of the tables.
#[derive(Clone, Copy, Debug, PartialEq, Eq)]
pub struct Mark {
    pub terms: usize,
    pub words: usize,
}

impl Mark {
    pub const NONE: Mark = Mark { terms: 0, words: 0 };
}

// The tables as they are read. That they are good is asked of each call (`GoodTerms`, `GoodStore`) and is no invariant of the two structs: `settle`
// leaves tables that are not, and the tables are C's.
#[derive(Clone, Copy)]
pub struct Terms<'a> {
    pub index: &'a [u32],
    pub words: &'a [u32],
    pub mark: Mark,
}

// The tables as terms are kept in them.
#[derive(Drop)]
pub struct Store<'a> {
    pub index: &'a mut [u32],
    pub words: &'a mut [u32],
    pub mark: Mark,
}

// The bucket of a node.
fn bucket_of(node: &[u32]) -> usize
    ensures { result ≡ hash node.now }
{
    let mut h = 0;
    for word in node {
        h = ((h + *word as usize) * 2015346805) % 4294967296;
    }
    h / SPREAD
}

// Whether the words are those of the node: so few that `==` of slices, a call, takes longer.
fn is_node(words: &[u32], node: &[u32]) -> bool
    ensures { Decides result (words.now ≡ node.now) }
{
    words.len() == node.len() && words.iter().zip(node).all(|(a, b)| a == b)
}

// The words of the node come into the cells: so few that `copy_from_slice` takes longer.
fn write_node(cells: &mut [u32], node: &[u32])
    requires { length cells.old ≡ length node.now }
    ensures { cells.new ≡ node.now }
{
    for (i, word) in node.iter().enumerate() {
        cells[i] = *word;
    }
}

impl Terms<'_> {
    // Where the words of the term `id` start.
    pub fn start_of(&self, id: usize) -> usize
        requires { id ≤ length self.now.index.now }
        ensures { result ≡ start self.now.index.now id }
    {
        match id.checked_sub(1) {
            Some(before) => self.index[before] as usize,
            None => 0,
        }
    }

    // The words of the term `id`.
    pub fn node(&self, id: usize) -> &[u32]
        requires { Held self.now.index.now self.now.words.now id }
        ensures { result.now ≡ node_at self.now.index.now self.now.words.now id }
    {
        &self.words[self.start_of(id)..self.index[id] as usize]
    }

    // The head of the term `id`: a symbol, or SYMBOLS and a variable's number. Public and promised; nothing here calls it, since `Head::from` takes
    // words apart.
    pub fn head(&self, id: usize) -> usize
        requires { Held self.now.index.now self.now.words.now id }
        ensures { HeadIs self.now.index.now self.now.words.now id result }
    {
        self.words[self.start_of(id)] as usize
    }

    // Whether the term `id` has a variable.
    pub fn is_open(&self, id: usize) -> bool
        requires { HeldIn self.now.index.now id }
        ensures { OpenIs self.now.index.now id result }
    {
        self.index[FLAGS + id] != 0
    }

    // The number of the term whose words are the node's, looked for along the chain of its bucket.
    fn find(&self, node: &[u32], bucket: usize) -> Option<usize>
        requires good { GoodTerms self.now }
        requires shaped { Shaped self.now.mark.terms node.now }
        requires bucket_value { bucket ≡ hash node.now }
        ensures { result ≡ seek (terms_made self.now) (tree_at (terms_made self.now) node.now) }
    {
        let mut at = self.index[HEADS + bucket] as usize;
        // from term to term of the bucket, which is no count
        while at != 0 {
            let id = at - 1;
            if is_node(self.node(id), node) {
                return Some(id);
            }
            at = self.index[CHAINS + id] as usize;
        }
        None
    }

    // Whether the node has a variable, by the flags of its arguments.
    fn has_variable(&self, node: &[u32]) -> bool
        requires good { GoodTerms self.now }
        requires shaped { Shaped self.now.mark.terms node.now }
        ensures { result ≡ is_open (tree_at (terms_made self.now) node.now) }
    {
        if let Head::Variable(_) = Head::from(node[0]) {
            return true;
        }
        node[1..].iter().any(|arg| self.is_open(*arg as usize))
    }
}

// Term n comes into the index, at the head of its bucket. `has_variable` chooses no step: it is stored, as the term's flag.
fn link(index: &mut [u32], n: usize, bucket: usize, end: usize, has_variable: bool)
    requires { (length index.old ≡ INDEX) × (n < TERMS) × (bucket < BUCKETS) × (end ≤ WORDS) }
    ensures { Linked index.old index.new n bucket end (flag has_variable) }
{
    index[CHAINS + n] = index[HEADS + bucket];
    index[FLAGS + n] = u32::from(has_variable);
    index[HEADS + bucket] = (n + 1) as u32;
    index[n] = end as u32;
}

// Term n, the last one, goes out of the index; its bucket starts with the next one of the chain.
fn unlink(index: &mut [u32], n: usize, bucket: usize)
    requires { (length index.old ≡ INDEX) × (n < TERMS) × (bucket < BUCKETS) }
    ensures { Unlinked index.old index.new n bucket }
{
    index[HEADS + bucket] = index[CHAINS + n];
    index[CHAINS + n] = 0;
    index[FLAGS + n] = 0;
    index[n] = 0;
}

impl Store<'_> {
    // The same tables, to be read.
    pub fn terms(&self) -> Terms<'_>
        ensures { result ≡ terms_of self.now }
    {
        Terms {
            index: self.index,
            words: self.words,
            mark: self.mark,
        }
    }

    // The node comes into the store: a term that is there already, or a new one, if there is room.
    pub fn keep(&mut self, node: &[u32]) -> Result<usize, Row>
        requires good { GoodStore self.old }
        requires node { Node self.old.mark.terms node.now }
        ensures same_tables { SameTables self.old self.new }
        ensures kept { let t = tree_at (made_of self.old) node.now in KeptAs self.old self.new t (keep t (made_of self.old)) result }
    {
        let Mark {
            terms: id,
            words: start,
        } = self.mark;
        let bucket = bucket_of(node);
        let terms = self.terms();
        if let Some(found) = terms.find(node, bucket) {
            return Ok(found);
        }
        if TERMS <= id {
            return Err(Row::Terms);
        }
        let end = start + node.len();
        if terms.words.len() < end {
            return Err(Row::TermWords);
        }
        let has_variable = terms.has_variable(node);
        link(self.index, id, bucket, end, has_variable);
        write_node(&mut self.words[start..end], node);
        self.mark = Mark {
            terms: id + 1,
            words: end,
        };
        Ok(id)
    }

    // The variable v as a term. A variable's word is made here and in `variable` of the crate `kernel`: a way back from `Head` for the two would
    // be a function and a contract more, which say this same sum.
    pub fn keep_var(&mut self, v: usize) -> Result<usize, Row>
        requires { GoodStore self.old × (v < VARIABLES) }
        ensures same_tables { SameTables self.old self.new }
        ensures kept { KeptAs self.old self.new (var v) (keep (var v) (made_of self.old)) result }
    {
        self.keep(&[(SYMBOLS + v) as u32])
    }

    // The last term is taken away.
    fn drop_last(&mut self)
        requires { GoodStore self.old × (0 < self.old.mark.terms) }
        ensures same_tables { SameTables self.old self.new }
        ensures back { BackIn self.old self.new self.new.mark }
        ensures mark { (self.new.mark.terms ≡ self.old.mark.terms - 1) × (self.new.mark.words ≤ self.old.mark.words) }
    {
        let n = self.mark.terms - 1;
        let terms = self.terms();
        let start = terms.start_of(n);
        let bucket = bucket_of(terms.node(n));
        let end = self.mark.words;
        unlink(self.index, n, bucket);
        clear(&mut self.words[start..end]);
        self.mark = Mark {
            terms: n,
            words: start,
        };
    }

    // The tables go back to the old mark: the terms behind it are taken away, the highest first.
    pub fn forget(&mut self, old: Mark)
        requires { PartIn self.old old }
        ensures same_tables { SameTables self.old self.new }
        ensures back { BackIn self.old self.new old }
        ensures mark { self.new.mark ≡ old }
    {
        for _ in old.terms..self.mark.terms {
            self.drop_last();
        }
    }

    // The look-up part of the index becomes zero. So it is left after a check: where each term's words end, and nothing behind.
    pub fn settle(&mut self)
        requires { length self.old.index.now ≡ INDEX }
        ensures same_tables { SameTables self.old self.new }
        ensures index { self.new.index.now ≡ settled self.old.index.now }
        ensures words { self.new.words.now ≡ self.old.words.now }
        ensures mark { self.new.mark ≡ self.old.mark }
    {
        clear(&mut self.index[CHAINS..]);
    }
}
