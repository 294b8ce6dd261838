// The items of a step: bindings of the rule's variables, and at most one judgment, the conclusion as stated.
ghost use Rattle.std.specs.Prelude.{◌≡◌, ◌&&◌, ◌<◌, eqb, length, drop};
ghost use Rattle.rules.specs.Limits.{RULEVARS};
ghost use Rattle.rules.specs.Lex.{letters};
ghost use Rattle.rules.specs.Sexp.{Sexps, count, marked};
ghost use Rattle.rules.specs.Theory.{rule as rule_in};
ghost use Rattle.rules.specs.Step.{Items, bind_item, state_item, read_item, read_items, no_items};
ghost use Rattle.sexp.specs.Encode.{encodes};
ghost use Rattle.sexp.specs.Items.{Items as SomeItems};
ghost use Rattle.terms.specs.Lent.{SameTables, made_of};
ghost use Rattle.reading.specs.Lent.{ReadsItemIn};
ghost use Rattle.derivation.specs.ItemsOf.{ReadsRuleItem, ReadsRuleItems, HeldIn, ItemAs, ItemsAs};

use kernel::atoms::marked;
use kernel::rule_readers::Rules;
use questions::Question;
use reading::reader::Reader;
use rules::RULEVARS;
use sexp::items::Item;
use sexp::{items, lex};
use terms::patterns::Bound;
use terms::store::Store;

// A rule by its number, and the tables in which it stands.
#[derive(Clone, Copy)]
pub struct OneRule<'a> {
    pub rules: Rules<'a>,
    pub number: usize,
}

// What items say: the terms that the rule's variables are bound to, over which patterns are matched and built, and the number of the conclusion, where one
// is stated.
#[derive(Clone, Copy)]
pub struct Said {
    pub bound: Bound,
    pub stated: Option<usize>,
}

// Whether the items of a list, whose first is the atom at a place, are those of a binding `(?V TERM)`.
fn binds(text: &[u8], cells: &[u32], start: usize) -> bool
    requires { SomeItems cells.now × (start < length text.now) }
    ensures { (xs : Sexps) → cells.now ≡ encodes xs → result ≡ marked (letters (drop start text.now)) && eqb (count xs) 2 }
{
    marked(text, start) && items::count(cells) == 2
}

impl Said {
    // The binding of the variable of the rule with the name at a place: the term that the first item spells is what it is bound to.
    fn bind_item(
        &mut self,
        reader: &Reader<'_>,
        rule: &OneRule<'_>,
        store: &mut Store<'_>,
        cells: &[u32],
        start: usize,
    ) -> Result<(), Question>
        requires { ReadsRuleItem reader.now rule.now store.old cells.now self.old × (start < length reader.now.text.now) }
        ensures same_tables { SameTables store.old store.new }
        ensures item_as { (g : ReadsRuleItem reader.now rule.now store.old cells.now self.old) →
            let name = letters (drop start reader.now.text.now) in
            ItemAs store.old store.new (bind_item g.S (rule_in g.S.theory rule.now.number) name g.x g.it (made_of store.old)) self.old self.new result }
    {
        let OneRule { rules, number } = *rule;
        let name = lex::atom(reader.text, start);
        let count = rules.variables(number);
        let i = rules
            .rule_var_named(reader.theory, number, count, name)
            .ok_or(Question::Binding)?;
        let term = reader.term_of(store, cells, rules.variable_sort(number, i))?;
        if self.bound[i].is_some() {
            return Err(Question::Binding);
        }
        self.bound[i] = Some(term as u32);
        Ok(())
    }

    // The conclusion that the first item spells, where none is stated yet.
    fn state_item(
        &mut self,
        reader: &Reader<'_>,
        store: &mut Store<'_>,
        cells: &[u32],
    ) -> Result<(), Question>
        requires { ReadsItemIn reader.now store.old cells.now }
        ensures same_tables { SameTables store.old store.new }
        ensures item_as { (g : ReadsItemIn reader.now store.old cells.now) (it : Items) →
            HeldIn store.old self.old it →
            ItemAs store.old store.new (state_item g.S g.x it (made_of store.old)) self.old self.new result }
    {
        let judgment = reader.judgment(store, cells)?;
        if self.stated.is_some() {
            return Err(Question::Premises);
        }
        self.stated = Some(judgment);
        Ok(())
    }

    // The first item: a binding, or the conclusion. No `items::head`, which answers the bytes of a name: `marked` of the kernel asks by the name's place.
    fn read_item(
        &mut self,
        reader: &Reader<'_>,
        rule: &OneRule<'_>,
        store: &mut Store<'_>,
        cells: &[u32],
    ) -> Result<(), Question>
        requires { ReadsRuleItem reader.now rule.now store.old cells.now self.old }
        ensures same_tables { SameTables store.old store.new }
        ensures item_as { (g : ReadsRuleItem reader.now rule.now store.old cells.now self.old) →
            ItemAs store.old store.new (read_item g.S (rule_in g.S.theory rule.now.number) g.x g.it (made_of store.old)) self.old self.new result }
    {
        let inner = items::list(cells, 0).ok_or(Question::Spelling)?;
        if inner.is_empty() {
            return Err(Question::Spelling);
        }
        let Item::Atom(start) = items::item_at(inner, 0) else {
            return Err(Question::Spelling);
        };
        if binds(reader.text, inner, start) {
            return self.bind_item(reader, rule, store, items::from(inner, 1), start);
        }
        self.state_item(reader, store, cells)
    }
}

// All items.
pub fn read_items(
    reader: &Reader<'_>,
    rule: &OneRule<'_>,
    store: &mut Store<'_>,
    cells: &[u32],
) -> Result<Said, Question>
    requires { ReadsRuleItems reader.now rule.now store.old cells.now }
    ensures same_tables { SameTables store.old store.new }
    ensures items_as { (g : ReadsRuleItems reader.now rule.now store.old cells.now) →
        ItemsAs store.old store.new (read_items g.S (rule_in g.S.theory rule.now.number) g.xs no_items (made_of store.old)) result }
{
    let mut said = Said {
        bound: [None; RULEVARS],
        stated: None,
    };
    for item in items::all(cells) {
        said.read_item(reader, rule, store, item)?;
    }
    Ok(said)
}
