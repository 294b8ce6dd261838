// A writer that hands on what it is given in blocks, a piece whole in one of them. The block is an array: no heap is used, so that there is none to run
// out of, where std's `BufWriter` takes its buffer from an allocator.
ghost use Rattle.std.specs.Prelude.{◌≡◌, ◌≤◌};

use std::io;
use std::io::Write;

const BLOCK: usize = 65536;

#[derive(Drop)]
pub struct Blocks<W> {
    out: W,
    block: [u8; BLOCK],
    many: usize,
    ghost inside: { many ≤ 65536 },
}

impl<W: Write> Blocks<W> {
    pub fn new(out: W) -> Blocks<W>
        ensures { result.many ≡ 0 }
    {
        Blocks {
            out,
            block: [0; BLOCK],
            many: 0,
        }
    }

    // What stands in the block is handed on, and there is room for what comes.
    fn hand_on(&mut self) -> io::Result<()>
        ensures { self.new.many ≡ 0 }
    {
        let many = self.many;
        self.many = 0;
        self.out.write_all(&self.block[..many])
    }

    // The piece comes into the block, which is handed on before where there is no room; not one that is longer than the block.
    #[inline(always)]
    fn put(&mut self, buf: &[u8]) -> io::Result<bool> {
        if BLOCK - self.many < buf.len() {
            self.hand_on()?;
        }
        let at = self.many;
        let left = BLOCK - at;
        if left < buf.len() {
            return Ok(false);
        }
        let end = at + buf.len();
        self.block[at..end].copy_from_slice(buf);
        self.many = end;
        Ok(true)
    }
}

impl<W: Write> Write for Blocks<W> {
    fn write(&mut self, buf: &[u8]) -> io::Result<usize> {
        if self.put(buf)? {
            return Ok(buf.len());
        }
        self.out.write(buf)
    }

    // A piece goes out whole: most of what is written comes by this, piece by piece of long terms.
    fn write_all(&mut self, buf: &[u8]) -> io::Result<()> {
        if self.put(buf)? {
            return Ok(());
        }
        self.out.write_all(buf)
    }

    fn flush(&mut self) -> io::Result<()> {
        self.hand_on()?;
        self.out.flush()
    }
}
