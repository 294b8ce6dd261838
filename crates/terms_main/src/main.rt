// Unifies pairs of terms and writes what came of it. A term is given as text in prefix notation: `f` has two arguments, `a` and `b` have
// none, a digit is a variable; it is written with brackets. Of each pair the program writes the two terms, then the variables of the
// first, then `apart`, or the bindings by rising variable and both terms under them, which are the same; then an empty line. The file
// `stdout` follows from the definition: the last arguments are taken first, a variable is bound to the other side, and a value that was
// found before is changed by each later one. The first pair has bindings; the second fails by the occurs check, which sees x0 in
// (f (f x0 a) a) once x1 is bound; the third by the symbols a and b.
#![tactic(auto)]

ghost use Rattle.std.specs.Prelude.{ℕ, ◌≤◌, ◌<◌, length, IfOk, IfSome};
ghost use Rattle.terms.specs.declared.store.Terms.{Terms as StoredTerms};
ghost use Rattle.terms.specs.Lent.{GoodStore, GoodTerms, SameTables};
ghost use Rattle.terms.specs.Theta.{Theta};
ghost use Rattle.terms_main.specs.Placed.{Kept, Placed};

use anyhow::{Context, Error, Result, anyhow, bail};
use questions::Row;
use rules::{PAIRS, TERMS, TERMWORDS, VARIABLES, VARIABLEWORDS, WORDS};
use std::fmt::{self, Display};
use std::io::{self, Write};
use std::marker::Model;
use terms::heads::Head;
use terms::sets::has;
use terms::store::{Mark, Store, Terms};
use terms::substitute::substitute;
use terms::variables::variables;
use unification::unify::{Scratch, unify};

// The symbols by their numbers. No enum: a node holds numbers, so that `read` would cast each, and `Shown` turn each back by a `try_from` that says
// the numbers again.
const A: u32 = 0;

const B: u32 = 1;

const F: u32 = 2;

// By `map_err` at each call: the core writes no text, so that `Row` has no `Display`, which `?` into this error would ask.
fn no_room(_row: Row) -> Error {
    anyhow!("no room")
}

// Takes a term off the front of the text and puts it into the store; a refusal, too, leaves the terms that were there.
fn read(text: &mut &[u8], store: &mut Store<'_>) -> Result<usize>
    requires { GoodStore store.old }
    ensures shorter { length text.new.now ≤ length text.old.now }
    ensures same_tables { SameTables store.old store.new }
    ensures kept { Kept store.old store.new }
    ensures placed { IfOk result (λ id. Placed store.old id store.new) }
{
    let (head, rest) = text.split_first().context("a term is missing")?;
    *text = rest;
    let kept = match *head {
        b'a' => store.keep(&[A]),
        b'b' => store.keep(&[B]),
        b'f' => {
            let left = read(text, store)?;
            let right = read(text, store)?;
            store.keep(&[F, left as u32, right as u32])
        }
        digit @ b'0'..=b'9' => store.keep_var(usize::from(digit - b'0')),
        _ => bail!("no term begins with {head}"),
    };
    kept.map_err(no_room)
}

// The bindings under which two terms are the same, if there are any.
fn bindings(store: &mut Store<'_>, s: usize, t: usize) -> Result<Option<[u32; VARIABLES]>>
    requires { GoodStore store.old × (s < store.old.mark.terms) × (t < store.old.mark.terms) }
    ensures same_tables { SameTables store.old store.new }
    ensures kept { Kept store.old store.new }
    ensures bound { IfOk result (λ found. IfSome found (λ theta. Theta store.new.mark theta)) }
{
    let mut theta = [0; VARIABLES];
    let mut map = [0; VARIABLES];
    let mut memo = [0; TERMS];
    let mut pairs = [0; 2 * PAIRS];
    let mut seen = [0; TERMWORDS];
    let mut scratch = Scratch {
        map: &mut map,
        memo: &mut memo,
        pairs: &mut pairs,
        seen: &mut seen,
        waiting: 0,
    };
    let found = unify(store, VARIABLES, s, t, &mut theta, &mut scratch).map_err(no_room)?;
    if !found {
        return Ok(None);
    }
    Ok(Some(theta))
}

// A term that is there, to be written.
#[derive(Drop)]
struct Shown<'a> {
    terms: Terms<'a>,
    id: usize,
}

impl<'a> Model for Shown<'a> {
    ghost Value = { StoredTerms × ℕ };

    ghost view = { λ s. (s.terms, s.id) };

    ghost invariant = { λ s. GoodTerms s.terms × (s.id < s.terms.mark.terms) };
}

impl fmt::Display for Shown<'_> {
    fn fmt<W: fmt::Write>(&self, f: &mut fmt::Formatter<W>) -> fmt::Result {
        let terms = self.terms;
        let node = terms.node(self.id);
        if let Head::Variable(v) = Head::from(node[0]) {
            return write!(f, "x{v}");
        }
        let name = match node[0] {
            A => 'a',
            B => 'b',
            _ => 'f',
        };
        if node.len() == 1 {
            return write!(f, "{name}");
        }
        write!(f, "({name}")?;
        for arg in &node[1..] {
            write!(f, " ")?;
            let id = *arg as usize;
            Shown { terms, id }.fmt(f)?;
        }
        write!(f, ")")
    }
}

// Writes a word, the term `id`, and the line's end.
fn show_line<W: Write>(out: &mut W, word: &str, terms: &Terms<'_>, id: usize) -> io::Result<()>
    requires { GoodTerms terms.now × (id < terms.now.mark.terms) }
{
    let shown = Shown { terms: *terms, id };
    writeln!(out, "{word} {shown}")
}

// Writes the variables of the term `id`.
fn show_variables<W: Write>(out: &mut W, terms: &Terms<'_>, id: usize) -> io::Result<()>
    requires { GoodTerms terms.now × (id < terms.now.mark.terms) }
{
    let mut seen = [0; TERMWORDS];
    let mut set = [0; VARIABLEWORDS];
    variables(terms, id, &mut seen, &mut set);
    write!(out, "variables")?;
    for v in (0..VARIABLES).filter(|v| has(&set, *v)) {
        write!(out, " x{v}")?;
    }
    writeln!(out)
}

// Writes the bindings, one a line.
fn show_bindings<W: Write>(out: &mut W, terms: &Terms<'_>, theta: &[u32]) -> io::Result<()>
    requires { GoodTerms terms.now × Theta terms.now.mark theta.now }
{
    for (v, value) in theta.iter().enumerate() {
        if let Some(id) = (*value as usize).checked_sub(1) {
            let value = Shown { terms: *terms, id };
            writeln!(out, "x{v} = {value}")?;
        }
    }
    Ok(())
}

// Writes the term `id` under the bindings.
fn show_under<W: Write>(
    out: &mut W,
    word: &str,
    store: &mut Store<'_>,
    theta: &[u32],
    id: usize,
) -> Result<()>
    requires good { GoodStore store.old × (id < store.old.mark.terms) }
    requires bound { Theta store.old.mark theta.now }
    ensures same_tables { SameTables store.old store.new }
    ensures kept { Kept store.old store.new }
    ensures bound { Theta store.new.mark theta.now }
{
    let mut memo = [0; TERMS];
    let under = substitute(store, theta, &mut memo, id).map_err(no_room)?;
    show_line(out, word, &store.terms(), under)?;
    Ok(())
}

// Writes two terms, unifies them, and writes what came of it.
fn solve<W: Write>(out: &mut W, left: &str, right: &str) -> Result<()> {
    let mut index = [0; 4 * TERMS];
    let mut words = [0; WORDS];
    let mut store = Store {
        index: &mut index,
        words: &mut words,
        mark: Mark::NONE,
    };
    let s = read(&mut left.as_bytes(), &mut store)?;
    let t = read(&mut right.as_bytes(), &mut store)?;
    show_line(out, "first ", &store.terms(), s)?;
    show_line(out, "second", &store.terms(), t)?;
    show_variables(out, &store.terms(), s)?;
    let Some(theta) = bindings(&mut store, s, t)? else {
        writeln!(out, "apart")?;
        return Ok(());
    };
    show_bindings(out, &store.terms(), &theta)?;
    show_under(out, "first becomes", &mut store, &theta, s)?;
    show_under(out, "second becomes", &mut store, &theta, t)
}

fn run(rt: &HostRuntime) -> Result<()> {
    let mut out = rt.stdout();
    for (left, right) in [("f0f10", "ffa1fb2"), ("f01", "ff1af0a"), ("f0a", "fbb")] {
        // the next pair has a store of its own
        if let Err(error) = solve(&mut out, left, right) {
            writeln!(out, "{error}")?;
        }
        writeln!(out)?;
    }
    out.flush()?;
    Ok(())
}

// The status is 0 whatever comes, and what cannot be written is left out.
fn main(rt: HostRuntime) {
    let _ = run(&rt);
}
