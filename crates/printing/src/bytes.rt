// Bytes in an array, as many as came: no heap is used, so that there is none to run out of.
ghost use Rattle.std.specs.Prelude.{◌≡◌, ◌≤◌, length, take, IfOk};

use std::io;
use std::io::Read;

#[derive(Drop)]
pub struct Bytes<const N: usize> {
    pub cells: [u8; N],
    pub many: usize,
    ghost inside: { many ≤ N },
}

impl<const N: usize> Bytes<N> {
    pub fn new() -> Bytes<N>
        ensures { result.many ≡ 0 }
    {
        Bytes {
            cells: [0; N],
            many: 0,
        }
    }

    // Those of a slice, or as many of them as find room.
    pub(crate) fn of(bytes: &[u8]) -> Bytes<N> {
        let many = bytes.len().min(N);
        let mut cells = [0; N];
        cells[..many].copy_from_slice(&bytes[..many]);
        Bytes { cells, many }
    }

    pub fn as_slice(&self) -> &[u8]
        ensures { result.now ≡ take self.now.many self.now.cells }
    {
        &self.cells[..self.many]
    }
}

// Reads until the buffer is full or the input ends; how many bytes came.
pub(crate) fn fill<R: Read>(input: &mut R, buffer: &mut [u8]) -> io::Result<usize>
    ensures { IfOk result (λ many. many ≤ length buffer.old) }
{
    let mut many = 0;
    while many < buffer.len() {
        let more = input.read(&mut buffer[many..])?;
        if more == 0 {
            break;
        }
        many += more;
    }
    Ok(many)
}
