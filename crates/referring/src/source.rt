// What the forms of facts are read from: what names stand for, and the facts so far.
ghost use Rattle.std.specs.Prelude.{◌≡◌};
ghost use Rattle.referring.specs.Sources.{facts_of, source_of};

use facts::Fact;
use reading::reader::{Reader, reader_of};
use state::board::{Board, Given};
use state::sizes::Sizes;

// The facts: a record each, the entries of their lists; and how much of each table is used.
#[derive(Clone, Copy)]
pub struct Facts<'a> {
    pub records: &'a [Fact],
    pub lists: &'a [u32],
    pub n: Sizes,
}

// The same tables beside those in which names are looked up. They stand one by one: `Facts` in their place would hold the counts `n` a second time,
// beside the reader's, and every contract would have to say that they are the same.
#[derive(Clone, Copy)]
pub struct Source<'a> {
    pub reader: Reader<'a>,
    pub records: &'a [Fact],
    pub lists: &'a [u32],
}

impl Source<'_> {
    // The facts alone.
    pub fn facts(&self) -> Facts<'_>
        ensures { result ≡ facts_of self.now }
    {
        Facts {
            records: self.records,
            lists: self.lists,
            n: self.reader.n,
        }
    }
}

// That of a check.
pub fn source_of<'a>(given: &Given<'a>, board: &'a Board<'_>) -> Source<'a>
    ensures { result ≡ source_of given.now board.now }
{
    Source {
        reader: reader_of(given, board),
        records: board.facts,
        lists: board.lists,
    }
}
