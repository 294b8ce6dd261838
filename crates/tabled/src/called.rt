// Functions that are there for other programs, and that none here calls, are called here. They stand in crates below, which a test there would prove twice.
use cells::Span;
use forms::declare::add_var;
use kernel::rule_readers::Rules;
use printing::load::{LoadError, load_texts};
use questions::Text;
use rules::{SORTS, SYMBOLS, VARIABLES};
use state::board::{Board, Given};
use state::sizes::Sizes;
use state::vars::put_var;
use std::alloc::{AllocError, Allocator};
use std::env::{Env, FillError};
use std::fs::{Metadata, OpenFile, OpenOptions};
use std::io;
use std::io::{ErrorKind, Read, Seek, SeekFrom, Write};
use std::rt::Files;

// A machine whose program is called without arguments; its files are so many letters each, and none where there is no number.
#[derive(Drop)]
struct Machine {
    theory: usize,
    goals: Option<usize>,
    proof: usize,
}

// What is left of a file that is read.
#[derive(Drop)]
struct Letters {
    left: usize,
}

fn unsupported() -> io::Error {
    io::Error::from(ErrorKind::Unsupported)
}

impl Read for Letters {
    fn read(&mut self, buf: &mut [u8]) -> io::Result<usize> {
        let many = self.left.min(buf.len());
        buf[..many].fill(b'a');
        self.left -= many;
        Ok(many)
    }
}

impl Write for Letters {
    fn write(&mut self, _buf: &[u8]) -> io::Result<usize> {
        Err(unsupported())
    }

    fn flush(&mut self) -> io::Result<()> {
        Err(unsupported())
    }
}

impl Seek for Letters {
    fn seek(&mut self, _pos: SeekFrom) -> io::Result<u64> {
        Err(unsupported())
    }
}

impl OpenFile for Letters {
    fn metadata(&self) -> io::Result<Metadata> {
        Err(unsupported())
    }

    fn set_len(&self, _size: u64) -> io::Result<()> {
        Err(unsupported())
    }

    fn sync_all(&self) -> io::Result<()> {
        Err(unsupported())
    }

    fn sync_data(&self) -> io::Result<()> {
        Err(unsupported())
    }
}

impl Env for Machine {
    fn arg(&self, i: usize, _buf: &mut [u8]) -> Result<usize, FillError> {
        if i == 0 {
            Ok(0)
        } else {
            Err(FillError::NotPresent)
        }
    }

    fn var(&self, _name: &str, _buf: &mut [u8]) -> Result<usize, FillError> {
        Err(FillError::NotPresent)
    }

    fn var_at(&self, _i: usize, _buf: &mut [u8]) -> Result<usize, FillError> {
        Err(FillError::NotPresent)
    }
}

impl Files for Machine {
    type File = Letters;

    type Dir = Letters;

    fn open_file(&self, _how: &OpenOptions, path: &str) -> io::Result<Letters> {
        let many = match path {
            "theory" => Some(self.theory),
            "goals" => self.goals,
            "proof" => Some(self.proof),
            _ => None,
        };
        let left = many.ok_or(io::Error::from(ErrorKind::NotFound))?;
        Ok(Letters { left })
    }

    fn open_dir(&self, _path: &str) -> io::Result<Letters> {
        Err(unsupported())
    }

    fn metadata(&self, _path: &str) -> io::Result<Metadata> {
        Err(unsupported())
    }

    fn symlink_metadata(&self, _path: &str) -> io::Result<Metadata> {
        Err(unsupported())
    }

    fn copy(&self, _from: &str, _to: &str) -> io::Result<u64> {
        Err(unsupported())
    }

    fn rename(&self, _from: &str, _to: &str) -> io::Result<()> {
        Err(unsupported())
    }

    fn remove_file(&self, _path: &str) -> io::Result<()> {
        Err(unsupported())
    }

    fn create_dir(&self, _path: &str) -> io::Result<()> {
        Err(unsupported())
    }

    fn remove_dir(&self, _path: &str) -> io::Result<()> {
        Err(unsupported())
    }

    fn remove_dir_all<B: Allocator>(&self, _alloc: B, _path: &str) -> io::Result<()> {
        Err(unsupported())
    }
}

// A file that is too long is cut behind one byte more than a text may have.
#[test]
fn loads_three_texts(rt: HostRuntime) {
    let machine = Machine {
        theory: 3,
        goals: Some(70_000),
        proof: 0,
    };
    let loaded = load_texts(&machine).ok();
    let files = loaded.expect(&rt, "the texts are there");
    let texts = files.texts();
    assert_eq!(rt; texts.theory, b"aaa".as_slice());
    assert_eq!(rt; texts.goals.len(), rules::LENGTH + 1);
    assert_eq!(rt; texts.proof.len(), 0);
}

#[test]
fn names_a_file_that_is_missing(rt: HostRuntime) -> io::Result<()> {
    let machine = Machine {
        theory: 3,
        goals: None,
        proof: 0,
    };
    let mut out = Vec::new(rt.alloc());
    match load_texts(&machine) {
        Ok(_) => writeln!(out, "loaded")?,
        Err(error) => error.write("horn", &mut out)?,
    }
    assert_eq!(rt; str::from_utf8(&out), Ok("goals: entity not found\n"));
    Ok(())
}

#[test]
fn says_that_memory_is_out(rt: HostRuntime) -> io::Result<()> {
    let mut out = Vec::new(rt.alloc());
    LoadError::from(AllocError).write("horn", &mut out)?;
    assert_eq!(rt; str::from_utf8(&out), Ok("argument: out of memory\n"));
    Ok(())
}

#[test]
fn puts_variables(rt: HostRuntime) {
    let mut vars = [0; 4 * VARIABLES];
    put_var(&mut vars, 1, 2, Some(Text::Proof), Span { from: 5, end: 6 });
    put_var(&mut vars, 2, 1, None, Span { from: 0, end: 0 });
    for (at, cell) in [0, 0, 0, 0, 2, 3, 5, 6, 1, 0, 0, 0, 0].iter().enumerate() {
        assert_eq!(rt; vars.get(at), Some(cell), "cell {at}");
    }
}

#[test]
fn declares_a_variable(rt: HostRuntime) {
    let mut sorts = [0; 2 * SORTS];
    sorts[1] = 1;
    let symbols = [0; 4 * SYMBOLS];
    let mut vars = [0; 4 * VARIABLES];
    let (theory, text, none) = (*b"S", *b"(var x S)", []);
    let rules = Rules {
        rows: &none,
        vars: &none,
        patterns: &none,
    };
    let given = Given {
        theory: &theory,
        goals: &theory,
        text: &text,
        sorts: &sorts,
        symbols: &symbols,
        inputs: &none,
        rules,
    };
    let mut board = Board {
        vars: &mut vars,
        defs: &mut [],
        rows: &mut [],
        facts: &mut [],
        lists: &mut [],
        n: Sizes {
            sorts: 1,
            symbols: 0,
            rules: 0,
            vars: 0,
            defs: 0,
            goals: 0,
            facts: 0,
            entries: 0,
        },
    };
    // the places of `var`, `x` and `S`, twice and with 1 added
    let answer = add_var(&given, &mut board, Text::Proof, &[3, 11, 15]);
    assert_eq!(rt; answer, Ok(()));
    assert_eq!(rt; board.n.vars, 1);
    for (at, cell) in [1, 3, 5, 6, 0].iter().enumerate() {
        assert_eq!(rt; vars.get(at), Some(cell), "cell {at}");
    }
}
