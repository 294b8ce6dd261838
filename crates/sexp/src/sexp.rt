// Reads a text form by form. A form's cells: an atom is `2 * start + 1`, a list `2 * number of its items' cells`, followed by these:
// kind and number in one, since C lends the cells as plain numbers.
ghost use Rattle.std.specs.Prelude.{◌≡◌, ℕ, ◌++◌, ◌+◌, ◌*◌, ◌-◌, ◌^◌, ◌≤◌, ◌<◌, length, get_or, set, drop, replicate};
ghost use Rattle.rules.specs.Limits.{LENGTH};
ghost use Rattle.rules.specs.Sexp.{read};
ghost use Rattle.sexp.specs.Reads.{Clear, ReadRight, found};
ghost use Rattle.sexp.specs.Through.{Legible};
ghost use Rattle.sexp.specs.Whole.{EndsAs};
ghost use Rattle.sexp.specs.Tokens.{Gives};
ghost use Rattle.sexp.specs.declared.tokens.Token.TheVariants.{Open};

use crate::tokens::{Token, Tokens};
use cells::clear;
use questions::{Question, Refused};

// A form that was read: the place behind it in the text, and the number of its cells.
#[derive(Clone, Copy, Debug, PartialEq, Eq)]
pub struct Form {
    pub end: usize,
    pub cells: usize,
}

// Stores a number that fits a cell.
fn put(words: &mut [u32], at: usize, cell: usize)
    requires { (at < length words.old) × (cell < 2 ^ 32) }
    ensures { words.new ≡ set words.old at cell }
{
    words[at] = cell as u32;
}

// Closes the list whose cell is at `head`, where the place of the list around it stood, which is handed out.
fn close_list(words: &mut [u32], head: usize, count: usize) -> usize
    requires { (head < length words.old) × (2 * count < 2 ^ 32) }
    ensures { (result ≡ get_or words.old head 0) × (words.new ≡ set words.old head (2 * count)) }
{
    let around = words[head] as usize;
    words[head] = (2 * count) as u32;
    around
}

// Reads the list whose bracket comes before these tokens. The outermost list has the first cell, which is zero already. Where it is not read, the cells that
// it has so far become zero again: `or_cleared` around it would clear the whole table, since a refusal does not say how many it has.
fn read_list(mut tokens: Tokens<'_>, words: &mut [u32]) -> Result<Form, Question>
    requires behind_bracket { (from : ℕ) × Gives tokens.text.now from Open tokens.at }
    requires legible { Legible tokens.text.now words.old }
    ensures { (from : ℕ) → Gives tokens.entry.text.now from Open tokens.entry.at →
        ReadRight tokens.entry.text.now from words.old words.new (found result) }
{
    let mut cells = 1;
    let mut depth = 1;
    let mut open = 0; // the cell of the innermost open list
    // no `for`: the place behind the last bracket is part of the answer, and a `for` that is left does not say where it was
    while let Some(token) = tokens.next() {
        match token {
            Token::Open => {
                if depth == rules::DEPTH {
                    clear(&mut words[..cells]);
                    return Err(Question::Depth);
                }
                put(words, cells, open);
                open = cells;
                cells += 1;
                depth += 1;
            }
            Token::Close => {
                open = close_list(words, open, cells - open - 1);
                depth -= 1;
                if depth == 0 {
                    return Ok(Form {
                        end: tokens.at,
                        cells,
                    });
                }
            }
            Token::Atom(start) => {
                put(words, cells, 2 * start + 1);
                cells += 1;
            }
        }
    }
    clear(&mut words[..cells]);
    Err(Question::Brackets)
}

// Reads one form, from a place of the text on, into cells that are zero; they stay zero behind the form, and where none was read.
pub fn read_form(text: &[u8], from: usize, words: &mut [u32]) -> Result<Option<Form>, Question>
    requires from_in_bounds { from ≤ length text.now }
    requires legible { Legible text.now words.old }
    ensures { ReadRight text.now from words.old words.new result }
{
    let mut tokens = Tokens { text, at: from };
    match tokens.next() {
        None => Ok(None),
        Some(Token::Open) => Ok(Some(read_list(tokens, words)?)),
        Some(Token::Close) => Err(Question::Brackets),
        Some(Token::Atom(start)) => {
            put(words, 0, 2 * start + 1);
            Ok(Some(Form {
                end: tokens.at,
                cells: 1,
            }))
        }
    }
}

// How many bracketed forms a text has, without a look at them and without cells; of a text that is refused, how many stand before.
pub fn read_all(text: &[u8]) -> Result<usize, Refused>
    ensures { EndsAs (read text.now) 0 result }
{
    let tokens = Tokens { text, at: 0 };
    let mut depth = 0;
    let mut forms = 0;
    for token in tokens {
        match token {
            Token::Open => {
                if depth == rules::DEPTH {
                    return Err(Question::Depth.behind(forms));
                }
                depth += 1;
            }
            Token::Close => {
                if depth == 0 {
                    return Err(Question::Brackets.behind(forms));
                }
                depth -= 1;
                if depth == 0 {
                    forms += 1;
                }
            }
            Token::Atom(_) => {}
        }
    }
    if depth != 0 {
        return Err(Question::Brackets.behind(forms));
    }
    Ok(forms)
}
