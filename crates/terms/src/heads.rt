// What the first word of a node, and each word of a pattern, stands for. The tables are C's, so that it is a number there; `Head::from` takes
// it apart.
ghost use Rattle.terms.specs.Heads.{HeadOf};

use rules::SYMBOLS;

#[derive(Clone, Copy, Debug, PartialEq, Eq)]
pub enum Head {
    Symbol(usize),
    Variable(usize),
}

// That of a word: a symbol's number, or SYMBOLS and a variable's.
impl From<u32> for Head {
    ghost from_gives = { λ word head. HeadOf word head };

    fn from(word: u32) -> Head {
        match (word as usize).checked_sub(SYMBOLS) {
            Some(v) => Head::Variable(v),
            None => Head::Symbol(word as usize),
        }
    }
}
