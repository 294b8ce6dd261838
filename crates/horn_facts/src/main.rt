// `horn_facts THEORY GOALS PROOF` writes the answer's line and then what is recorded, read off the lent tables: each fact, each fact's footing, and the
// goals without a result that 53 lists.
#![tactic(auto)]

mod blocks;

use crate::blocks::Blocks;
use printing::load::{TextFiles, read_texts};
use running::texts::Texts;
use std::io;
use std::io::Write;
use tabled::told::tell;

fn write_facts(rt: &HostRuntime, texts: &Texts<'_>) -> io::Result<()> {
    let mut out = Blocks::new(rt.stdout());
    tell(texts, &mut out)?;
    out.flush()
}

// As in `horn`, which names itself and writes its own: a function over a closure would save none of the two lines.
fn run(rt: &HostRuntime) -> io::Result<()> {
    let mut files = TextFiles::new();
    match read_texts(rt, &mut files) {
        Ok(()) => write_facts(rt, &files.texts()),
        Err(error) => error.write("horn_facts", &mut rt.stderr()),
    }
}

// The status is 0 whatever comes, and what cannot be written is left out.
fn main(rt: HostRuntime) {
    let _ = run(&rt);
}
