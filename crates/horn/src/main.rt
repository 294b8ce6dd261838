// `horn THEORY GOALS PROOF` checks the proof in three files and writes the answer's line. Without arguments the files are called theory, goals, proof.
#![tactic(auto)]

use printing::line::Line;
use printing::load::{TextFiles, read_texts};
use std::io;
use tabled::answers::answer;

fn run(rt: &HostRuntime) -> io::Result<()> {
    let mut files = TextFiles::new();
    match read_texts(rt, &mut files) {
        Ok(()) => rt.println(Line(answer(&files.texts()))),
        Err(error) => error.write("horn", &mut rt.stderr()),
    }
}

// The status is 0 whatever comes, and what cannot be written is left out.
fn main(rt: HostRuntime) {
    let _ = run(&rt);
}
