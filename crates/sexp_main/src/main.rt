// Reads up to 4,096 bytes of forms from standard input and writes them back, a form a line, one space between items, without comments.
#![tactic(auto)]

mod items;

ghost use Rattle.std.specs.Prelude.{◌≤◌, length};
ghost use Rattle.sexp.specs.Through.{Legible};

use crate::items::{Items, Part};
use cells::clear;
use sexp::sexp::read_form;
use std::io::{self, Read, Write};

// How much of the input is read.
const INPUT: usize = 4096;

// Writes the items of a list. No `Display`: an atom's bytes are written as they are, and need not be UTF-8.
fn show<W: Write>(out: &mut W, items: Items<'_>) -> io::Result<()> {
    for (i, item) in items.enumerate() {
        if 0 < i {
            write!(out, " ")?;
        }
        match item {
            Part::Atom(bytes) => out.write_all(bytes)?,
            Part::List(items) => {
                write!(out, "(")?;
                show(out, items)?;
                write!(out, ")")?;
            }
        }
    }
    Ok(())
}

// Writes a text's forms, up to its end or to a refusal, whose number it writes.
fn show_all<W: Write>(out: &mut W, text: &[u8], words: &mut [u32]) -> io::Result<()>
    requires { Legible text.now words.old }
{
    let mut at = 0;
    // from form to form, which is no count; a form is read into lent cells, which no iterator could lend on
    loop {
        match read_form(text, at, words) {
            Ok(Some(form)) => {
                show(
                    out,
                    Items {
                        text,
                        cells: &words[..form.cells],
                    },
                )?;
                writeln!(out)?;
                clear(&mut words[..form.cells]);
                at = form.end;
            }
            Ok(None) => return Ok(()),
            Err(question) => return writeln!(out, "refused {}", question.number()),
        }
    }
}

// Reads until the buffer is full, the input ends or reading fails; how many bytes came.
fn fill<R: Read>(input: &mut R, buffer: &mut [u8]) -> usize
    ensures { result ≤ length buffer.old }
{
    let mut many = 0;
    while many < buffer.len() {
        let more = input.read(&mut buffer[many..]).unwrap_or(0);
        if more == 0 {
            break;
        }
        many += more;
    }
    many
}

// Text and cells stand in arrays, and each piece is written at once: no heap is used, so that there is none to run out of.
fn run(rt: &HostRuntime) -> io::Result<()> {
    let mut text = [0u8; INPUT];
    let mut words = [0u32; INPUT];
    let many = fill(&mut rt.reader(), &mut text);
    show_all(&mut rt.stdout(), &text[..many], &mut words)
}

// The status is 0 whatever comes, and what cannot be written is left out.
fn main(rt: HostRuntime) {
    let _ = run(&rt);
}
