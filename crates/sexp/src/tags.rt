// The tags of forms: one fixed table each for the proof, the theory and the goals.
ghost use Rattle.std.specs.Prelude.{◌≡◌, Some, None, MatchOption};
ghost use Rattle.rules.specs.Tags.{fits, proof_tag, declaration, goal_form, index_place};
ghost use Rattle.sexp.specs.TagTable.{tag_answer, declaration_answer, goal_answer, row_of, row_in, tag_of_row};

use crate::names::same;

// Of a proof's form; `Hyp` and `RuleHyp` are `hyp` without and with premises, `InductWith` has a list of hypotheses.
#[derive(Clone, Copy, Debug, PartialEq, Eq)]
pub enum Tag {
    Var,
    Def,
    Step,
    Hyp,
    RuleHyp,
    Induct,
    InductWith,
    Apply,
    Invert,
    Outcome,
}

// Of a theory's form.
#[derive(Clone, Copy, Debug, PartialEq, Eq)]
pub enum Declaration {
    Sort,
    Ctor,
    Pred,
    Rule,
}

// Of the goals' form; `GoalWith` lists hypotheses.
#[derive(Clone, Copy, Debug, PartialEq, Eq)]
pub enum GoalForm {
    Variable,
    Goal,
    GoalWith,
}

// A form by the name that it begins with and its number of items, the name counted: its tag, and the place of its index.
struct Row<T> {
    name: &'static [u8],
    least: usize,
    most: Option<usize>,
    index: Option<usize>,
    tag: T,
}

static PROOF: [Row<Tag>; 10] = [
    Row {
        name: b"var",
        least: 3,
        most: Some(3),
        index: None,
        tag: Tag::Var,
    },
    Row {
        name: b"def",
        least: 3,
        most: Some(3),
        index: None,
        tag: Tag::Def,
    },
    Row {
        name: b"step",
        least: 4,
        most: None,
        index: Some(1),
        tag: Tag::Step,
    },
    Row {
        name: b"hyp",
        least: 3,
        most: Some(3), // with premises it has five
        index: Some(1),
        tag: Tag::Hyp,
    },
    Row {
        name: b"hyp",
        least: 5,
        most: Some(5),
        index: Some(1), // of a hypothesis with premises
        tag: Tag::RuleHyp,
    },
    Row {
        name: b"induct",
        least: 5,
        most: Some(5),
        index: Some(1),
        tag: Tag::Induct,
    },
    Row {
        name: b"induct",
        least: 6,
        most: Some(6),
        index: Some(1),
        tag: Tag::InductWith,
    },
    Row {
        name: b"apply",
        least: 5,
        most: Some(5),
        index: Some(1),
        tag: Tag::Apply,
    },
    Row {
        name: b"invert",
        least: 6,
        most: Some(6),
        index: Some(1), // of an inversion
        tag: Tag::Invert,
    },
    Row {
        name: b"result",
        least: 3,
        most: Some(3),
        index: None,
        tag: Tag::Outcome,
    },
];

static THEORY: [Row<Declaration>; 4] = [
    Row {
        name: b"sort",
        least: 2,
        most: Some(2),
        index: None,
        tag: Declaration::Sort,
    },
    Row {
        name: b"ctor",
        least: 4,
        most: Some(4),
        index: None,
        tag: Declaration::Ctor,
    },
    Row {
        name: b"pred",
        least: 3,
        most: Some(3),
        index: None,
        tag: Declaration::Pred,
    },
    Row {
        name: b"rule",
        least: 4,
        most: Some(4),
        index: None,
        tag: Declaration::Rule,
    },
];

static GOALS: [Row<GoalForm>; 3] = [
    Row {
        name: b"var",
        least: 3,
        most: Some(3),
        index: None,
        tag: GoalForm::Variable,
    },
    Row {
        name: b"goal",
        least: 3,
        most: Some(3),
        index: None,
        tag: GoalForm::Goal,
    },
    Row {
        name: b"goal",
        least: 4,
        most: Some(4),
        index: None,
        tag: GoalForm::GoalWith,
    },
];

impl<T> Row<T> {
    #[tactic(auto, unfolding(rules::specs::Tags::fits, rules::specs::Tags::within))]
    fn fits(&self, name: &[u8], items: usize) -> bool
        ensures { result ≡ fits (row_of self.now) name.now items }
    {
        self.least <= items && self.most.is_none_or(|most| items <= most) && same(self.name, name)
    }
}

// The first row for that name and so many items.
fn row_in<'a, T>(rows: &'a [Row<T>], name: &[u8], items: usize) -> Option<&'a Row<T>>
    ensures { MatchOption result (row_in rows.now name.now items ≡ None) (λ row. row_in rows.now name.now items ≡ Some row.now) }
{
    rows.iter().find(|row| row.fits(name, items))
}

// Its tag.
fn tag_in<T: Copy>(rows: &[Row<T>], name: &[u8], items: usize) -> Option<T>
    ensures { result ≡ tag_of_row (row_in rows.now name.now items) }
{
    row_in(rows, name, items).map(|row| row.tag)
}

// The tag of a proof's form that begins with that name and has so many items.
pub fn proof_tag(name: &[u8], items: usize) -> Option<Tag>
    ensures { result ≡ tag_answer (proof_tag name.now items) }
{
    tag_in(&PROOF, name, items)
}

// Where the index of such a form stands among its items; public and promised, and nothing here calls it.
pub fn index_place(name: &[u8], items: usize) -> Option<usize>
    ensures { result ≡ index_place name.now items }
{
    let form = row_in(&PROOF, name, items)?;
    form.index
}

// The same for a theory's form.
pub fn theory_tag(name: &[u8], items: usize) -> Option<Declaration>
    ensures { result ≡ declaration_answer (declaration name.now items) }
{
    tag_in(&THEORY, name, items)
}

// The same for the goals'.
pub fn goal_tag(name: &[u8], items: usize) -> Option<GoalForm>
    ensures { result ≡ goal_answer (goal_form name.now items) }
{
    tag_in(&GOALS, name, items)
}
