// The tokens of a text, one after the other, by which forms are read: brackets, and atoms by where they begin.
ghost use Rattle.std.specs.Prelude.{◌≤◌, length};

use crate::lex::{atom_end, skip};

#[derive(Clone, Copy)]
pub enum Token {
    Open,
    Close,
    Atom(usize),
}

// Those of a text from a place on, and behind a token the place behind it.
#[derive(Clone, Copy)]
pub struct Tokens<'a> {
    pub text: &'a [u8],
    pub at: usize,
    ghost inside: { at ≤ length text.now },
}

impl<'a> Iterator for Tokens<'a> {
    ghost use Rattle.std.specs.Prelude.{◌-◌};
    ghost use Rattle.std.specs.Iterator.{at_most};
    ghost use Rattle.sexp.specs.Tokens.{Lexes};

    type Item = Token;

    ghost next_gives = { Lexes };

    ghost remaining = { λ s. at_most (length s.text.now - s.at) };

    // Put into each loop that asks for tokens, and `skip` with it: for a theory of 64 KB `read_all` takes 66 % more instructions with both as calls, and 24 %
    // more with `skip` as one.
    #[inline(always)]
    fn next(&mut self) -> Option<Token> {
        let Tokens { text, at } = *self;
        let start = skip(text, at);
        if text.len() <= start {
            return None;
        }
        match text[start] {
            b'(' => {
                self.at = start + 1;
                Some(Token::Open)
            }
            b')' => {
                self.at = start + 1;
                Some(Token::Close)
            }
            _ => {
                self.at = atom_end(text, start);
                Some(Token::Atom(start))
            }
        }
    }
}
