// Names of symbols, rules and variables, off the tables and the texts. What has no name there is `?`.
ghost use Rattle.std.specs.Prelude.{Some};
ghost use Rattle.printing.specs.Names.{name_text};

use crate::checked::Checked;
use questions::Text;
use std::fmt;
use std::io::{self, Write};
use terms::heads::Head;

// A name of a text, or the number of a variable that was made.
#[derive(Clone, Copy)]
pub(crate) enum Name<'a> {
    Written(&'a str),
    Made(usize),
}

impl fmt::Display for Name<'_> {
    ghost output = { λ n. Some (name_text n) };

    fn fmt<W: fmt::Write>(&self, f: &mut fmt::Formatter<W>) -> fmt::Result {
        match *self {
            Name::Written(name) => f.write_str(name),
            Name::Made(v) => write!(f, "_{v}"),
        }
    }
}

impl Name<'_> {
    // A name that is written goes out as it is: terms are long, and a formatter between takes more than the rest.
    #[inline(always)]
    pub(crate) fn write<W: Write>(self, out: &mut W) -> io::Result<()> {
        match self {
            Name::Written(name) => out.write_all(name.as_bytes()),
            Name::Made(_) => write!(out, "{self}"),
        }
    }
}

// The text whose number a cell holds; none for 0, which a variable that was made has: docs/TABLES.md. No `TryFrom<u32> for Text`: it would be public, with
// an error that its one caller, this crate, drops, and no shorter.
pub(crate) fn text_in(cell: u32) -> Option<Text> {
    [Text::Theory, Text::Goals, Text::Proof]
        .iter()
        .copied()
        .find(|text| text.number() == cell as usize)
}

// A part of a text. Its ends are cells as they stand, and no `Span`, whose `of` asks that it lie in the text.
fn part(text: &[u8], from: u32, to: u32) -> &str {
    text.get(from as usize..to as usize)
        .filter(|name| !name.is_empty())
        .and_then(|name| str::from_utf8(name).ok())
        .unwrap_or("?")
}

impl<'a> Checked<'a> {
    // This and `symbol_name` read rows of two tables, whose names stand in other columns: one function would be handed the row's width and the column.
    pub(crate) fn rule_name(&self, rule: usize) -> &'a str {
        self.rules
            .get(rule)
            .map_or("?", |[from, to, ..]| part(self.texts.theory, *from, *to))
    }

    fn symbol_name(&self, symbol: usize) -> &'a str {
        self.symbols.get(symbol).map_or("?", |[_, _, from, to]| part(self.texts.theory, *from, *to))
    }

    pub(crate) fn variable_name(&self, v: usize) -> Name<'a> {
        self.vars
            .get(v)
            .and_then(|[_, text, from, to]| Some(part(self.text(text_in(*text)?), *from, *to)))
            .map_or(Name::Made(v), Name::Written)
    }

    pub(crate) fn head_name(&self, head: Head) -> Name<'a> {
        match head {
            Head::Symbol(c) => Name::Written(self.symbol_name(c)),
            Head::Variable(v) => self.variable_name(v),
        }
    }

    fn text(&self, text: Text) -> &'a [u8] {
        match text {
            Text::Theory => self.texts.theory,
            Text::Goals => self.texts.goals,
            Text::Proof => self.texts.proof,
        }
    }

    // 0 in a cell is none: docs/TABLES.md
    pub(crate) fn is_predicate(&self, head: Head) -> bool {
        match head {
            Head::Symbol(c) => self.symbols.get(c).is_some_and(|[output, ..]| *output == 0),
            Head::Variable(_) => false,
        }
    }
}
