// The items of a list, in the cells of that list; the rest of a list goes on as a part of these.
ghost use Rattle.std.specs.Prelude.{◌≡◌, ℕ, ◌<◌, List, length, drop};
ghost use Rattle.rules.specs.Sexp.{Sexps, count, item};
ghost use Rattle.sexp.specs.Encode.{encodes};
ghost use Rattle.sexp.specs.Items.{Held, Holds, Items, Reaches, item_at, item_of, behind, place};
ghost use Rattle.sexp.specs.Each.{HeadIs, ListIn};

use crate::lex::atom;

// An atom by its place in the text, or a list by where its items' cells begin and end, two places of which the definition's words (`item_of`) speak.
#[derive(Clone, Copy, Debug, PartialEq, Eq)]
pub enum Item {
    Atom(usize),
    List(usize, usize),
}

// The item whose cells begin at a place.
pub fn item_at(words: &[u32], at: usize) -> Item
    requires { at < length words.now }
    ensures { result ≡ item_at words.now at }
{
    let cell = words[at] as usize;
    if cell % 2 == 1 {
        return Item::Atom(cell / 2);
    }
    let start = at + 1;
    Item::List(start, start + cell / 2)
}

// The place behind it.
pub fn after(words: &[u32], at: usize) -> usize
    requires { at < length words.now }
    ensures { result ≡ behind at (item_at words.now at) }
{
    match item_at(words, at) {
        Item::Atom(_) => at + 1,
        Item::List(_, end) => end,
    }
}

// The items of a list, one after the other, each by the cells from it on. Not one slice that gets shorter, which is no plainer: `next` would be as long, and
// the invariant of each walk, which says by the place how far it has come, would say it by a difference of two lengths.
#[derive(Clone, Copy)]
pub struct Each<'a> {
    pub cells: &'a [u32],
    pub at: usize,
}

// All items of a list.
pub fn all(cells: &[u32]) -> Each<'_>
    ensures { (result.cells.now ≡ cells.now) × (result.at ≡ 0) }
{
    Each { cells, at: 0 }
}

impl<'a> Iterator for Each<'a> {
    ghost use Rattle.std.specs.Prelude.{◌-◌};
    ghost use Rattle.std.specs.Iterator.{at_most};
    ghost use Rattle.sexp.specs.Each.{Walks};

    type Item = &'a [u32];

    ghost next_gives = { Walks };

    ghost remaining = { λ s. at_most (length s.cells.now - s.at) };

    fn next(&mut self) -> Option<&'a [u32]> {
        let Each { cells, at } = *self;
        if cells.len() <= at {
            return None;
        }
        self.at = after(cells, at);
        Some(&cells[at..])
    }
}

// The bytes of the atom that the items begin with.
pub fn head<'a>(text: &'a [u8], words: &[u32]) -> Option<&'a [u8]>
    requires { Held text.now words.now }
    ensures { (xs : Sexps) → Holds text.now words.now xs → HeadIs (item xs 0) result }
{
    if words.is_empty() {
        return None;
    }
    let Item::Atom(start) = item_at(words, 0) else {
        return None;
    };
    Some(atom(text, start))
}

// The number of items.
pub fn count(words: &[u32]) -> usize
    requires { Items words.now }
    ensures { (xs : Sexps) → words.now ≡ encodes xs → result ≡ count xs }
{
    all(words).count()
}

// Where the item with that number begins, counted from 0, and with it the rest of the list. At the end, where `next` stands still, it stops, however large the
// number is. Not by `all(words).nth(number)`, which is no plainer: it gives the cells from there on, and none behind the last item, so that the place would be
// a difference of two lengths, or the length.
pub fn place(words: &[u32], number: usize) -> usize
    ensures { (xs : Sexps) → words.now ≡ encodes xs → result ≡ place xs number }
{
    let mut items = all(words);
    for _k in 0..number {
        if items.next().is_none() {
            return items.at;
        }
    }
    items.at
}

// The items from that number on.
pub fn from(words: &[u32], number: usize) -> &[u32]
    ensures { (xs : Sexps) → words.now ≡ encodes xs → result.now ≡ drop (place xs number) words.now }
{
    let at = place(words, number);
    words.get(at..).unwrap_or(&[])
}

// The item with that number.
pub fn nth(words: &[u32], number: usize) -> Item
    requires { Reaches words.now number }
    ensures { (xs : Sexps) → words.now ≡ encodes xs → result ≡ item_of (place xs number) (item xs number) }
{
    let at = place(words, number);
    item_at(words, at)
}

// The cells of the items of the list with that number; none where an atom has it, or no item. It asks nothing, so that who cuts owes no bounds.
pub fn list(words: &[u32], number: usize) -> Option<&[u32]>
    ensures { (text : List ℕ) (xs : Sexps) → Holds text words.now xs → number < count xs → ListIn text words.now (item xs number) result }
{
    let at = place(words, number);
    if words.len() <= at {
        return None;
    }
    let Item::List(start, end) = item_at(words, at) else {
        return None;
    };
    words.get(start..end)
}
