// Steps of unification over the store: what two terms ask for, and their arguments put among the pairs that wait, two cells for each
// (specs/Pairs.antt says how cells stand for pairs).
ghost use Rattle.std.specs.Prelude.{◌≡◌, ◌+◌, ◌*◌, ◌≤◌, ◌<◌, length};
ghost use Rattle.rules.specs.Limits.{VARIABLES};
ghost use Rattle.rules.specs.Unify.{bind_or_clash, look};
ghost use Rattle.terms.specs.Lent.{tree_made};
ghost use Rattle.unification.specs.Pairs.{SearchableIn, ComparableIn, AnsweredIn, piled};
ghost use Rattle.unification.specs.Unify.{SameCells, KeptButPairs};

use crate::unify::Scratch;
use terms::heads::Head;
use terms::store::Terms;
use terms::variables::occurs;

// What two terms ask for: nothing, as they are one; no unifier exists; a variable bound to a term; or their arguments, pair by pair. No variant
// has a `Step`, though three of them are its own: `bind` and `compare` would name both enums at each of their five such returns, for two arms less
// in `onward`.
#[derive(Clone, Copy, Debug, PartialEq, Eq)]
pub enum Asks<'a> {
    Nothing,
    Clash,
    Binds { variable: usize, term: usize },
    Parts { left: &'a [u32], right: &'a [u32] },
}

// The variable `x` is bound to the term `id`, unless it occurs there. `seen` is scratch: zero before and after.
fn bind<'a>(terms: &Terms<'_>, x: usize, id: usize, seen: &mut [u64]) -> Asks<'a>
    requires { SearchableIn terms.now seen.old id × (x < VARIABLES) }
    ensures answered { AnsweredIn terms.now (bind_or_clash x (tree_made terms.now id)) result }
    ensures seen_unchanged { seen.new ≡ seen.old }
{
    if !occurs(terms, id, x, seen) {
        return Asks::Binds {
            variable: x,
            term: id,
        };
    }
    Asks::Clash
}

// What the terms `s` and `t` ask for. `seen` is scratch: zero before and after.
pub fn compare<'a>(terms: &'a Terms<'_>, s: usize, t: usize, seen: &mut [u64]) -> Asks<'a>
    requires { ComparableIn terms.now seen.old s t }
    ensures answered { AnsweredIn terms.now (look (tree_made terms.now s) (tree_made terms.now t)) result }
    ensures seen_unchanged { seen.new ≡ seen.old }
{
    if s == t {
        return Asks::Nothing;
    }
    let left = terms.node(s);
    if let Head::Variable(x) = Head::from(left[0]) {
        return bind(terms, x, t, seen);
    }
    let right = terms.node(t);
    if let Head::Variable(x) = Head::from(right[0]) {
        return bind(terms, x, s, seen);
    }
    if left[0] != right[0] {
        return Asks::Clash;
    }
    if left.len() != right.len() {
        return Asks::Clash;
    }
    Asks::Parts {
        left: &left[1..],
        right: &right[1..],
    }
}

impl Scratch<'_> {
    // The words of `left` come onto those that wait, each with that of `right`.
    pub(crate) fn push(&mut self, left: &[u32], right: &[u32])
        requires { (length right.now ≡ length left.now) × (2 * (self.old.waiting + length left.now) ≤ length self.old.pairs.now) }
        ensures same_cells { SameCells self.old self.new }
        ensures pairs { self.new.pairs.now ≡ piled left.now right.now self.old.pairs.now self.old.waiting (length left.now) }
        ensures waiting { self.new.waiting ≡ self.old.waiting + length left.now }
        ensures unchanged { KeptButPairs self.old self.new }
    {
        for (word, other) in left.iter().zip(right) {
            let at = 2 * self.waiting;
            self.pairs[at] = *word;
            self.pairs[at + 1] = *other;
            self.waiting += 1;
        }
    }
}
