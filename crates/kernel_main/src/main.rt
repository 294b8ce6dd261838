// Reads up to 4,096 bytes of a theory from standard input and writes the answer, then the used rows of each table, a row a line.
#![tactic(auto)]

ghost use Rattle.std.specs.Prelude.{◌<◌, ◌≤◌, length};

use kernel::parse::parse;
use kernel::tables::{Counts, Tables};
use questions::Refused;
use rules::{ARGUMENTS, PATTERNS, RULES, RULEVARS, SORTS, SYMBOLS};
use std::io::{self, Read, Write};

// How much of the input is read.
const INPUT: usize = 4096;

// Writes how many forms were taken, or the question that was answered by no and the forms before it.
fn show_answer<W: Write>(out: &mut W, answer: Result<usize, Refused>) -> io::Result<()> {
    match answer {
        Ok(forms) => write!(out, "done {forms}"),
        Err(Refused { question, form }) => {
            let number = question.number();
            let detail = question.detail();
            write!(out, "refused {number} {detail} {form}")
        }
    }
}

// Writes a name and the cells of a row behind it.
fn show_row<W: Write>(out: &mut W, name: &str, row: &[u32]) -> io::Result<()> {
    write!(out, "{name}")?;
    for cell in row {
        write!(out, " {cell}")?;
    }
    writeln!(out)
}

// Writes the first rows of a table.
fn show_rows<W: Write>(
    out: &mut W,
    name: &str,
    table: &[u32],
    width: usize,
    count: usize,
) -> io::Result<()>
    requires { 0 < width }
{
    for row in table.chunks_exact(width).take(count) {
        show_row(out, name, row)?;
    }
    Ok(())
}

// Writes what is used of the tables; the words of all patterns are one row.
fn show_tables<W: Write>(out: &mut W, tables: &Tables<'_>) -> io::Result<()>
    requires { tables.now.held.words ≤ length tables.now.patterns.now }
{
    let Counts {
        sorts,
        symbols,
        rules,
        words,
    } = tables.held;
    writeln!(out, " {sorts} {symbols} {rules} {words}")?;
    show_rows(out, "sort", tables.sorts, 2, sorts)?;
    show_rows(out, "symbol", tables.symbols, 4, symbols)?;
    show_rows(out, "inputs", tables.inputs, ARGUMENTS, symbols)?;
    show_rows(out, "rule", tables.rules, 6, rules)?;
    show_rows(out, "variables", tables.vars, 3 * RULEVARS, rules)?;
    show_row(out, "patterns", &tables.patterns[..words])
}

// Reads until the buffer is full, the input ends or reading fails; how many bytes came. As in `sexp_main`: the two share no crate that knows of input, and
// a new one for a loop is no plainer.
fn fill<R: Read>(input: &mut R, buffer: &mut [u8]) -> usize
    ensures { result ≤ length buffer.old }
{
    let mut many = 0;
    while many < buffer.len() {
        let more = input.read(&mut buffer[many..]).unwrap_or(0);
        if more == 0 {
            break;
        }
        many += more;
    }
    many
}

// Text and tables stand in arrays, and each piece is written at once: no heap is used, so that there is none to run out of.
fn run(rt: &HostRuntime) -> io::Result<()> {
    let mut text = [0u8; INPUT];
    let many = fill(&mut rt.reader(), &mut text);
    let mut cells = [0u32; INPUT];
    let mut sorts = [0; 2 * SORTS];
    let mut symbols = [0; 4 * SYMBOLS];
    let mut inputs = [0; ARGUMENTS * SYMBOLS];
    let mut rules = [0; 6 * RULES];
    let mut vars = [0; 3 * RULEVARS * RULES];
    let mut patterns = [0; PATTERNS];
    let mut tables = Tables {
        sorts: &mut sorts,
        symbols: &mut symbols,
        inputs: &mut inputs,
        rules: &mut rules,
        vars: &mut vars,
        patterns: &mut patterns,
        held: Counts::NONE,
    };
    let mut out = rt.stdout();
    show_answer(&mut out, parse(&text[..many], &mut cells, &mut tables))?;
    show_tables(&mut out, &tables)
}

// The status is 0 whatever comes, and what cannot be written is left out.
fn main(rt: HostRuntime) {
    let _ = run(&rt);
}
