// Replays stored cases from standard input: each case's three texts are checked, and the line, and where they are stored the facts and the footings, are
// compared with what is expected. Names the cases that differ; the last line says how many were replayed.
#![tactic(auto)]

mod case;
mod expected;
mod window;

use crate::case::{behind_header, cut_case};
use crate::expected::is_as_expected;
use crate::window::Window;
use std::io;
use std::io::Write;

// Cases that are read at most, so that the walk is seen to end.
const CASES: usize = 100000;

// All cases of the input; how many.
fn replay_all(rt: &HostRuntime) -> io::Result<usize> {
    let mut input = rt.reader();
    let mut window = Window::new();
    let left = behind_header(window.refilled(&mut input)).len();
    window.keep(left);
    for many in 0..CASES {
        let text = window.refilled(&mut input);
        if text.is_empty() {
            return Ok(many);
        }
        let (case, rest) = cut_case(text);
        if !is_as_expected(&case)? {
            let mut out = rt.stdout();
            out.write_all(b"differs: ")?;
            out.write_all(case.name)?;
            out.write_all(b"\n")?;
        }
        let left = rest.len();
        window.keep(left);
    }
    Ok(CASES)
}

fn run(rt: &HostRuntime) -> io::Result<()> {
    let many = replay_all(rt)?;
    println!(rt; "{many} cases replayed")
}

// The status is 0 whatever comes, and what cannot be written is left out.
fn main(rt: HostRuntime) {
    let _ = run(&rt);
}
