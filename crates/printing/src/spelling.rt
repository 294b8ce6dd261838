// Terms, spelled by name: a constant or a variable as such, an application in brackets. Terms are shared, so that one may be longer than anything else: it
// stops at BYTES, with `...`.
ghost use Rattle.std.specs.Prelude.{◌≡◌, ◌≤◌, ◌-◌, length, None, IfOk, OnOk};
ghost use Rattle.std.specs.Io.{WritesAtMost};
ghost use Rattle.std.specs.Io.KnownBytes.{Appends, WriteAppends};

use crate::checked::Checked;
use crate::names::Name;
use rules::{SYMBOLS, TERMS, VARIABLES};
use std::io;
use std::io::Write;
use terms::heads::Head;

// What may be written of one term.
const BYTES: usize = 1000000;

// A writer that counts what may still be written of a term.
#[derive(Drop)]
struct Counted<'a, W> {
    out: &'a mut W,
    left: usize,
}

impl<W: Write> Write for Counted<'_, W> {
    fn write(&mut self, buf: &[u8]) -> io::Result<usize>
        ensures bound { WritesAtMost result buf.now }
        ensures bytes { WriteAppends None None result buf.now }
        ensures counted { IfOk result (λ n. self.new.left ≡ self.old.left - n) }
    {
        let n = self.out.write(buf)?;
        self.left = self.left.saturating_sub(n);
        Ok(n)
    }

    // As a piece goes out whole, its bytes are counted at once. In place where it is called, as what `open` does is: a term is thousands of pieces.
    #[inline(always)]
    fn write_all(&mut self, buf: &[u8]) -> io::Result<()>
        ensures bytes { OnOk result (Appends None None buf.now) }
        ensures counted { OnOk result (self.new.left ≡ self.old.left - length buf.now) }
    {
        self.out.write_all(buf)?;
        self.left = self.left.saturating_sub(buf.len());
        Ok(())
    }

    fn flush(&mut self) -> io::Result<()> {
        self.out.flush()
    }
}

// A head as it is written, and whether it stands without brackets where it has no arguments: a variable or a constant does, a judgment does not.
#[derive(Clone, Copy)]
struct Spelled<'a> {
    name: Name<'a>,
    bare: bool,
}

// What terms are spelled with: how each head is written, which is looked up once and not for each term, and the arguments that wait, of the terms that are
// begun and not ended. In arrays: terms nest no deeper than there are terms, and no heap is used.
#[derive(Drop)]
pub(crate) struct Spelling<'a> {
    heads: [Spelled<'a>; HEADS],
    waiting: [&'a [u32]; TERMS],
    depth: usize,
    ghost inside: { depth ≤ 4096 },
}

// Symbols, and behind them variables, as the words of terms have them.
const HEADS: usize = SYMBOLS + VARIABLES;

impl<'a> Spelling<'a> {
    pub(crate) fn of(checked: &Checked<'a>) -> Spelling<'a> {
        let none: &[u32] = &[];
        let unknown = Spelled {
            name: Name::Written("?"),
            bare: true,
        };
        let mut heads = [unknown; HEADS];
        // by its number: what is lent to be changed may hold no references of its own
        for word in 0..HEADS {
            let head = Head::from(word as u32);
            heads[word] = Spelled {
                name: checked.head_name(head),
                bare: !checked.is_predicate(head),
            };
        }
        Spelling {
            heads,
            waiting: [none; TERMS],
            depth: 0,
        }
    }

    #[inline(always)]
    fn push(&mut self, arguments: &'a [u32]) {
        if self.depth < TERMS {
            self.waiting[self.depth] = arguments;
            self.depth += 1;
        }
    }
}

impl<'a> Checked<'a> {
    // Its first word and its arguments.
    #[inline(always)]
    fn words_of(&self, term: usize) -> Option<(u32, &'a [u32])> {
        let from = match term.checked_sub(1) {
            Some(before) => *self.index.get(before)?,
            None => 0,
        };
        let end = *self.index.get(term)?;
        match self.words.get(from as usize..end as usize)? {
            [word, arguments @ ..] => Some((*word, arguments)),
            [] => None,
        }
    }

    // The beginning of a term, with a space before it if it is an argument. Its own arguments wait, if it has brackets.
    #[inline(always)]
    fn open<W: Write>(
        &self,
        term: u32,
        is_argument: bool,
        spelling: &mut Spelling<'a>,
        out: &mut W,
    ) -> io::Result<()> {
        let spelled = self.words_of(term as usize).and_then(|(word, arguments)| Some((
            *spelling.heads.get(word as usize)?,
            arguments,
        )));
        let Some((Spelled { name, bare }, arguments)) = spelled else {
            return out.write_all(if is_argument { b" ?" } else { b"?" });
        };
        if bare && arguments.is_empty() {
            if is_argument {
                out.write_all(b" ")?;
            }
            return name.write(out);
        }
        spelling.push(arguments);
        out.write_all(if is_argument { b" (" } else { b"(" })?;
        name.write(out)
    }

    // What `spelling` held waiting goes.
    pub(crate) fn write_term<W: Write>(
        &self,
        term: u32,
        spelling: &mut Spelling<'a>,
        out: &mut W,
    ) -> io::Result<()> {
        spelling.depth = 0;
        let mut out = Counted { out, left: BYTES };
        self.open(term, false, spelling, &mut out)?;
        // a `for`, so that it is seen to end: each turn writes a byte or more, and BYTES are left at most
        for _ in 0..BYTES + 1 {
            let Some(last) = spelling.depth.checked_sub(1) else {
                break;
            };
            if out.left == 0 {
                out.write_all(b" ...")?;
                for _ in 0..spelling.depth {
                    out.write_all(b")")?;
                }
                break;
            }
            match spelling.waiting[last] {
                [argument, rest @ ..] => {
                    spelling.waiting[last] = rest;
                    self.open(*argument, true, spelling, &mut out)?;
                }
                [] => {
                    out.write_all(b")")?;
                    spelling.depth = last;
                }
            }
        }
        Ok(())
    }
}
