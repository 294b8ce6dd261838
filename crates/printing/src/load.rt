// The three texts that a program is called with, read from files, or why there are none.
ghost use Rattle.std.specs.Prelude.{◌≡◌, take, IfOk};
ghost use Rattle.printing.specs.Loaded.{AreShort, BlamesArgument};

use crate::bytes::{Bytes, fill};
use running::texts::Texts;
use std::alloc::AllocError;
use std::env::{Env, FillError};
use std::fmt::InlineText;
use std::io::{Error, Write};
use std::rt::Files;
use std::{fs, io};

// Bytes that are read of a text: one more than it may have, so that a longer one is refused.
pub const TEXT: usize = rules::LENGTH + 1;

// And those of a file's name at most.
pub const NAME: usize = 4096;

// Linux's numbers of two errors, for arguments that cannot be had: the message is what the system says of a number, and an `ErrorKind` has words of its own.
const MISSING: i32 = 22;

const TOO_LONG: i32 = 36;

// What the three files hold: they own it, and `Texts` only reads it.
#[derive(Drop)]
pub struct TextFiles {
    pub theory: Bytes<TEXT>,
    pub goals: Bytes<TEXT>,
    pub proof: Bytes<TEXT>,
}

impl TextFiles {
    // Empty ones, to be read into. They are lent to `read_texts`, and not handed out by it, so that they stand on the stack once.
    pub fn new() -> TextFiles
        ensures { (result.theory.many ≡ 0) × (result.goals.many ≡ 0) × (result.proof.many ≡ 0) }
    {
        TextFiles {
            theory: Bytes::new(),
            goals: Bytes::new(),
            proof: Bytes::new(),
        }
    }

    pub fn texts(&self) -> Texts<'_>
        ensures theory { result.theory.now ≡ take self.now.theory.many self.now.theory.cells }
        ensures goals { result.goals.now ≡ take self.now.goals.many self.now.goals.cells }
        ensures proof { result.proof.now ≡ take self.now.proof.many self.now.proof.cells }
    {
        Texts {
            theory: self.theory.as_slice(),
            goals: self.goals.as_slice(),
            proof: self.proof.as_slice(),
        }
    }
}

#[derive(Drop)]
pub enum LoadError {
    // There are neither none nor three arguments.
    Usage,
    Argument(Error),
    File { name: Bytes<NAME>, error: Error },
}

// For a caller that takes memory: nothing here does.
impl From<AllocError> for LoadError {
    ghost from_gives = { λ _ e. BlamesArgument e };

    fn from(error: AllocError) -> LoadError {
        LoadError::Argument(Error::from(error))
    }
}

impl From<FillError> for LoadError {
    fn from(error: FillError) -> LoadError {
        let number = match error {
            FillError::TooLong => TOO_LONG,
            FillError::NotPresent => MISSING,
        };
        LoadError::Argument(Error::from_raw_os_error(number))
    }
}

impl LoadError {
    // The message for standard error of the program of this name. It is no `Display`, since a file's name may not be text.
    pub fn write<W: Write>(self, program: &str, out: &mut W) -> io::Result<()> {
        match self {
            LoadError::Usage => writeln!(out, "usage: {program} THEORY GOALS PROOF"),
            LoadError::Argument(error) => write_failure(b"argument", error, out),
            LoadError::File { name, error } => write_failure(name.as_slice(), error, out),
        }
    }
}

// What failed, a colon and what the system says; the number of its error is left out.
fn write_failure<W: Write>(what: &[u8], error: Error, out: &mut W) -> io::Result<()> {
    let text = InlineText::<256>::of(error);
    let said = text.as_str();
    let why = said
        .split_once(" (os error ")
        .map_or(said, |(front, _)| front);
    out.write_all(what)?;
    writeln!(out, ": {why}")
}

// The file of this name, which is UTF-8.
fn read_file<R: Files>(rt: &R, name: &[u8], text: &mut Bytes<TEXT>) -> io::Result<()> {
    let path = str::from_utf8(name).map_err(|_| Error::from_raw_os_error(MISSING))?;
    text.many = fill(&mut fs::open(rt, path)?, &mut text.cells)?;
    Ok(())
}

// What argument i says, as bytes: `env::args` of the library gives none where one is not UTF-8, and the message has to name such a file.
fn argument<R: Env>(rt: &R, i: usize) -> Result<Bytes<NAME>, LoadError> {
    let mut name = Bytes::new();
    name.many = rt.arg(i, &mut name.cells)?;
    Ok(name)
}

// Whether there is an argument i; argument 0 is the program's own name.
fn has_argument<R: Env>(rt: &R, i: usize) -> bool {
    let mut first = [0u8; 1];
    !matches!(rt.arg(i, &mut first), Err(FillError::NotPresent))
}

// The file that argument i names, or where there are no arguments the one of this name.
fn read_text<R: Files + Env>(
    rt: &R,
    i: usize,
    own: &[u8],
    text: &mut Bytes<TEXT>,
) -> Result<(), LoadError> {
    let name = if has_argument(rt, 1) {
        argument(rt, i)?
    } else {
        Bytes::of(own)
    };
    read_file(rt, name.as_slice(), text).map_err(|error| LoadError::File { name, error })
}

// The three files that the arguments name; without arguments those called theory, goals and proof.
pub fn read_texts<R: Files + Env>(rt: &R, files: &mut TextFiles) -> Result<(), LoadError>
    ensures { AreShort files.new }
{
    if has_argument(rt, 1) && (!has_argument(rt, 3) || has_argument(rt, 4)) {
        return Err(LoadError::Usage);
    }
    read_text(rt, 1, b"theory", &mut files.theory)?;
    read_text(rt, 2, b"goals", &mut files.goals)?;
    read_text(rt, 3, b"proof", &mut files.proof)
}

// The same, into files of its own, which it hands out.
pub fn load_texts<R: Files + Env>(rt: &R) -> Result<TextFiles, LoadError>
    ensures { IfOk result AreShort }
{
    let mut files = TextFiles::new();
    read_texts(rt, &mut files)?;
    Ok(files)
}
