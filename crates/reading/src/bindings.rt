// Bindings `(VAR TERM)`, each variable once: a map with a cell for each variable, 0 or the number of its term with 1 added, as `substitute` of
// `terms` takes it, whose cells C lends (`tariff_substitute`).
ghost use Rattle.std.specs.Prelude.{◌≡◌, [], replicate};
ghost use Rattle.rules.specs.Limits.{VARIABLES};
ghost use Rattle.rules.specs.Reference.{binding, bindings};
ghost use Rattle.terms.specs.Lent.{SameTables, made_of};
ghost use Rattle.reading.specs.Lent.{ReadsItemIn, ReadsItemsIn};
ghost use Rattle.reading.specs.Answers.{PairAs, BindingsAs};

use crate::reader::Reader;
use cells::or_cleared;
use questions::Question;
use rules::VARIABLES;
use sexp::items;
use state::vars::var_sort;
use terms::store::Store;

// A variable and the number of the term to which it is bound.
#[derive(Clone, Copy, Debug, PartialEq, Eq)]
pub struct Pair {
    pub variable: usize,
    pub term: usize,
}

impl Reader<'_> {
    // The binding that the first item spells.
    fn binding(&self, store: &mut Store<'_>, cells: &[u32]) -> Result<Pair, Question>
        requires { ReadsItemIn self.now store.old cells.now }
        ensures same_tables { SameTables store.old store.new }
        ensures pair_as { (g : ReadsItemIn self.now store.old cells.now) → PairAs store.old store.new (binding g.S g.x (made_of store.old)) result }
    {
        let inner = items::list(cells, 0).ok_or(Question::Binding)?;
        if items::count(inner) != 2 {
            return Err(Question::Binding);
        }
        let variable = self.variable(inner).ok_or(Question::Binding)?;
        let second = items::from(inner, 1);
        let term = self.term_of(store, second, var_sort(self.vars, variable))?;
        Ok(Pair { variable, term })
    }

    // The bindings that the items spell come into the map, which is zero before.
    fn binding_each(
        &self,
        store: &mut Store<'_>,
        cells: &[u32],
        map: &mut [u32; VARIABLES],
    ) -> Result<(), Question>
        requires reads_items { ReadsItemsIn self.now store.old cells.now }
        requires map_value { map.old ≡ replicate VARIABLES 0 }
        ensures same_tables { SameTables store.old store.new }
        ensures bindings_as { (g : ReadsItemsIn self.now store.old cells.now) →
            BindingsAs store.old store.new (bindings g.S g.xs [] (made_of store.old)) map.new map.new result }
    {
        for item in items::all(cells) {
            let pair = self.binding(store, item)?;
            if map[pair.variable] != 0 {
                return Err(Question::Binding);
            }
            map[pair.variable] = (pair.term + 1) as u32;
        }
        Ok(())
    }

    // The same; where they are refused, the map is zero again. It is lent: as an answer, of 2 KB, it is set to zero once more and copied, and the check of
    // `mid` takes 3 % more instructions.
    pub fn bindings(
        &self,
        store: &mut Store<'_>,
        cells: &[u32],
        map: &mut [u32; VARIABLES],
    ) -> Result<(), Question>
        requires reads_items { ReadsItemsIn self.now store.old cells.now }
        requires map_value { map.old ≡ replicate VARIABLES 0 }
        ensures same_tables { SameTables store.old store.new }
        ensures bindings_as { (g : ReadsItemsIn self.now store.old cells.now) →
            BindingsAs store.old store.new (bindings g.S g.xs [] (made_of store.old)) map.old map.new result }
    {
        let each = self.binding_each(store, cells, map);
        or_cleared(each, map)
    }
}
