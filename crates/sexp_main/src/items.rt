// The items of a list, one after the other.
ghost use Rattle.std.specs.Prelude.{length};
ghost use Rattle.std.specs.Iterator.{at_most};
ghost use Rattle.sexp.specs.Items.{Held};

use sexp::items::{Item, item_at};
use sexp::lex::atom;

// Those that are left: the text that their atoms stand in, and their cells. `sexp::items::Each` gives cells and asks nothing; these hold the text, and that
// the cells are of it, so that `show` needs no contract.
#[derive(Clone, Copy)]
pub struct Items<'a> {
    pub text: &'a [u8],
    pub cells: &'a [u32],
    ghost held: { ∥ Held text.now cells.now ∥₁ },
}

// An atom's bytes, or a list's items.
#[derive(Clone, Copy)]
pub enum Part<'a> {
    Atom(&'a [u8]),
    List(Items<'a>),
}

impl<'a> Iterator for Items<'a> {
    ghost use Rattle.sexp_main.specs.Nested.{Nests};

    type Item = Part<'a>;

    ghost next_gives = { Nests };

    ghost remaining = { λ items. at_most (length items.cells.now) };

    fn next(&mut self) -> Option<Part<'a>> {
        let Items { text, cells } = *self;
        if cells.is_empty() {
            return None;
        }
        match item_at(cells, 0) {
            Item::Atom(start) => {
                self.cells = &cells[1..];
                Some(Part::Atom(atom(text, start)))
            }
            Item::List(start, end) => {
                self.cells = &cells[end..];
                let cells = &cells[start..end];
                Some(Part::List(Items { text, cells }))
            }
        }
    }
}
