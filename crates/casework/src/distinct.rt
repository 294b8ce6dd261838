// Whether a name is among those met before. They are a tree that goes by the bits of names (specs/Distinct.antt): each name that one is compared with agrees with it in one
// bit more, so that it costs by its own letters, whatever the names are.
ghost use Rattle.std.specs.Prelude.{◌≡◌, ◌+◌, ◌*◌, ◌<◌, ◌≤◌, length};
ghost use Rattle.rules.specs.Limits.{LENGTH};
ghost use Rattle.state.specs.Entries.{part};
ghost use Rattle.casework.specs.Distinct.{turn_of, TreeIn, SpotIn, SameNames, EnteredIn};

use cells::{Span, span_at};
use kernel::atoms::put_span;
use sexp::names::same;

// Which of two ways a name takes at a depth: a number, since the way's cell is that far behind the first of a node's two.
fn turn(name: &[u8], depth: usize) -> usize
    ensures { (result ≡ turn_of name.now depth) × (result < 2) }
{
    name.get(depth / 8)
        .map_or(0, |letter| (usize::from(*letter) >> (depth % 8)) % 2)
}

// The names that were met, between two places of the text each, as a tree in cells. It is two tables of cells and no array of nodes, with the root in the
// links of node 0: a link is one number here, whichever way it goes, so that `seek` carries and answers one; of nodes it would be two, the node and the way,
// and the check knows nothing of how long an array in an element of a slice is, so that the two links of a node would be two fields and a choice.
#[derive(Drop)]
pub struct NameTree<'t, 'a> {
    pub text: &'t [u8],
    pub places: &'a mut [u32],
    pub links: &'a mut [u32],
    pub many: usize,
}

impl NameTree<'_, '_> {
    // The name's way through the tree: to a cell where it can come in; none where it meets itself.
    fn seek(&self, name: &[u8]) -> Option<usize>
        requires { TreeIn self.now }
        ensures { SpotIn self.now name.now result }
    {
        let mut cell = 0;
        let mut depth = 0;
        // no count: it goes from node to node, as deep as the tree is
        loop {
            let node = self.links[cell] as usize;
            if node == 0 {
                return Some(cell);
            }
            let row = 2 * node;
            let met = span_at(self.places, row);
            if same(met.of(self.text), name) {
                return None;
            }
            cell = row + turn(name, depth);
            depth += 1;
        }
    }

    // Whether the name is one of those in the tree; if not, it comes in.
    pub fn enter(&mut self, name: Span) -> bool
        requires tree { TreeIn self.old × (2 * self.old.many + 4 ≤ length self.old.places.now) × (length self.old.places.now ≤ LENGTH) }
        requires inside { (name.from ≤ name.end) × (name.end ≤ length self.old.text.now) × (length self.old.text.now ≤ LENGTH) }
        ensures same_names { SameNames self.old self.new }
        ensures entered { EnteredIn self.old self.new (part self.old.text.now name) result }
    {
        let text = self.text;
        let Some(cell) = self.seek(name.of(text)) else {
            return true;
        };
        let node = self.many + 1;
        let row = 2 * node;
        put_span(self.places, row, name);
        self.links[cell] = node as u32;
        self.many = node;
        false
    }
}
