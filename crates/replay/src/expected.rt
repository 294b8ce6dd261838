// One case: its texts are checked, and what is written is compared with what is expected.
use crate::case::Case;
use printing::line::Line;
use std::io;
use std::io::Write;
use tabled::answers::answer;
use tabled::told::tell;

// What is compared of what is written: a piece that does not end inside is left out, so that a case that wants more is not as expected.
const ROOM: usize = 65536;

// A writer that only compares: what is still wanted, one part behind the other. What comes behind it may be anything.
#[derive(Drop)]
struct Expected<'a> {
    wanted: [&'a [u8]; 4],
    differs: bool,
    room: usize,
}

impl Write for Expected<'_> {
    fn write(&mut self, buf: &[u8]) -> io::Result<usize> {
        let Some(room) = self.room.checked_sub(buf.len()) else {
            return Ok(buf.len());
        };
        self.room = room;
        let mut rest = buf;
        let mut differs = self.differs;
        for part in self.wanted.iter_mut() {
            let (now, later) = part.split_at(part.len().min(rest.len()));
            let (front, behind) = rest.split_at(now.len());
            differs = differs || front != now;
            *part = later;
            rest = behind;
        }
        self.differs = differs;
        Ok(buf.len())
    }

    // Each piece is taken whole.
    fn write_all(&mut self, buf: &[u8]) -> io::Result<()> {
        self.write(buf)?;
        Ok(())
    }

    fn flush(&mut self) -> io::Result<()> {
        Ok(())
    }
}

// Whether what is written begins with all that is wanted.
fn writes<'a, F: FnOnce(&mut Expected<'a>) -> io::Result<()>>(
    wanted: [&'a [u8]; 4],
    write: F,
) -> io::Result<bool>
    requires { F.IsAlwaysCallable write }
{
    let mut out = Expected {
        wanted,
        differs: false,
        room: ROOM,
    };
    write(&mut out)?;
    Ok(!out.differs && out.wanted.iter().all(|part| part.is_empty()))
}

// Whether the answer's line is the case's, and where they are stored, its facts and footings.
pub fn is_as_expected(case: &Case<'_>) -> io::Result<bool> {
    let Some(recorded) = case.recorded else {
        let line = Line(answer(&case.texts));
        return writes(
            [case.answer, b"\n", b"", b""],
            |out| writeln!(out, "{line}"),
        );
    };
    writes([case.answer, b"\n", recorded, b"(missing ["], |out| {
        tell(&case.texts, out)
    })
}
