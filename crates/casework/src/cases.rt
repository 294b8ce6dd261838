// The cases of `invert`, `(RULE INDEX (VAR...))`, one a name: question 41, and 42 for their variables.
ghost use Rattle.std.specs.Prelude.{◌≡◌, [], ◌≤◌, length};
ghost use Rattle.rules.specs.Limits.{LENGTH};
ghost use Rattle.rules.specs.Text.{same};
ghost use Rattle.rules.specs.Find.{any};
ghost use Rattle.rules.specs.Invert.{Case};
ghost use Rattle.state.specs.Entries.{part};
ghost use Rattle.casework.specs.Cases.{ReadsCase, ReadsCases, CaseFirst, CasesIn, CaseAs, CaseFound, Kept, Naming, TakenAs, CasesAs};

use crate::distinct::NameTree;
use cells::Span;
use questions::Question;
use reading::names::index as index_in;
use reading::reader::Reader;
use rules::{LENGTH, VARIABLES};
use sexp::items::Item;
use sexp::names::same;
use sexp::{items, lex};

// Up to so many cases are compared by pairs.
const FEW: usize = 16;

// The cells of a tree for 8,191 names, two for each.
const NAMECELLS: usize = 16384;

// Those of a tree with a root and no room for a name.
const ROOTCELLS: usize = 2;

// Where the case's name, an atom, stands in the text, the number of its fact, its variables, and how many they are, in an array as long as a list of them may be: no
// heap, and the core stands on `std` alone.
#[derive(Clone, Copy)]
pub struct CaseRead {
    pub name: Span,
    pub fact: usize,
    pub own: [u32; VARIABLES],
    pub variables: usize,
}

// The case that the first item spells.
pub fn read_case(reader: &Reader<'_>, cells: &[u32]) -> Result<CaseRead, Question>
    requires { ReadsCase reader.now cells.now }
    ensures { (g : ReadsCase reader.now cells.now) → CaseAs g.S reader.now.text.now g.x result }
{
    let inner = items::list(cells, 0).ok_or(Question::Cases)?;
    if items::count(inner) != 3 {
        return Err(Question::Cases);
    }
    let Item::Atom(start) = items::item_at(inner, 0) else {
        return Err(Question::Cases);
    };
    let fact = index_in(reader.text, items::from(inner, 1)).ok_or(Question::Cases)?;
    let mut own = [0u32; VARIABLES];
    let listed = reader.vars_list(items::from(inner, 2), &mut own);
    let variables = listed.ok_or(Question::CaseVariables)?;
    Ok(CaseRead {
        name: lex::atom_span(reader.text, start),
        fact,
        own,
        variables,
    })
}

// Whether the case that the first item is has that name.
fn is_named(text: &[u8], cells: &[u32], name: &[u8]) -> bool
    requires { CaseFirst text.now cells.now }
    ensures { (g : CaseFirst text.now cells.now) → result ≡ same g.c.name name.now }
{
    let Some(inner) = items::list(cells, 0) else {
        return false;
    };
    items::head(text, inner).is_some_and(|own| same(own, name))
}

// The case with that name, the first one of those in the cells: the cells from it on.
pub fn find_case<'a>(text: &[u8], cells: &'a [u32], name: &[u8]) -> Option<&'a [u32]>
    requires { CasesIn text.now cells.now }
    ensures { (g : CasesIn text.now cells.now) → CaseFound g.vs text.now cells.now g.cs name.now result }
{
    items::all(cells).find(|item| is_named(text, item, name))
}

// Whether one of the cases in the cells has that name, each looked at.
fn is_among(text: &[u8], cells: &[u32], name: &[u8]) -> bool
    requires { CasesIn text.now cells.now }
    ensures { (g : CasesIn text.now cells.now) →
        result ≡ any (λ (d : Case). same d.name name.now) g.cs }
{
    find_case(text, cells, name).is_some()
}

// Whether one of the cases in the cells has the name; if not, it comes into the tree of their names, where that has room.
fn is_taken(names: &mut NameTree<'_, '_>, cells: &[u32], name: Span) -> bool
    requires { Naming names.old cells.now × (name.from ≤ name.end) × (name.end ≤ length names.old.text.now) }
    ensures same_text { names.new.text ≡ names.old.text }
    ensures taken { (g : Naming names.old cells.now) →
        TakenAs names.new g.first.cs (part names.old.text.now name) result }
{
    let text = names.text;
    if text.len() > LENGTH {
        return is_among(text, cells, name.of(text));
    }
    if names.places.len() / 2 <= names.many + 1 {
        return is_among(text, cells, name.of(text));
    }
    names.enter(name)
}

// All cases are read, with a tree for their names, in which there is none.
fn read_with(
    reader: &Reader<'_>,
    cells: &[u32],
    names: &mut NameTree<'_, '_>,
) -> Result<(), Question>
    requires { ReadsCases reader.now cells.now × (names.old.text ≡ reader.now.text) × Kept names.old [] }
    ensures { (g : ReadsCases reader.now cells.now) → CasesAs g.S g.xs result }
{
    for item in items::all(cells) {
        let case = read_case(reader, item)?;
        let before = &cells[..cells.len() - item.len()];
        if is_taken(names, before, case.name) {
            return Err(Question::Cases);
        }
    }
    Ok(())
}

// The same, with a tree in so many cells, two for each name. Not drawn into its callers, each of which would hold the tree's stack for every form.
#[inline(never)]
fn read_in<const CELLS: usize>(reader: &Reader<'_>, cells: &[u32]) -> Result<(), Question>
    requires { ReadsCases reader.now cells.now × (CELLS ≤ LENGTH) }
    ensures { (g : ReadsCases reader.now cells.now) → CasesAs g.S g.xs result }
{
    let mut places = [0u32; CELLS];
    let mut links = [0u32; CELLS];
    let mut names = NameTree {
        text: reader.text,
        places: &mut places,
        links: &mut links,
        many: 0,
    };
    read_with(reader, cells, &mut names)
}

// All cases are read: what is asked of each, and that no two have one name. For many cases the tables are for more names than a text has room for: they
// are zeroed for long lists alone. For few there is no tree: the tables of a root alone have no room for a name, so that `is_taken`, which asks about
// room, compares by pairs. No Option of a tree says that instead: `is_taken` would ask whether there is one and then about room all the same.
pub fn read_cases(reader: &Reader<'_>, cells: &[u32]) -> Result<(), Question>
    requires { ReadsCases reader.now cells.now }
    ensures { (g : ReadsCases reader.now cells.now) → CasesAs g.S g.xs result }
{
    if items::count(cells) > FEW {
        return read_in::<NAMECELLS>(reader, cells);
    }
    read_in::<ROOTCELLS>(reader, cells)
}
