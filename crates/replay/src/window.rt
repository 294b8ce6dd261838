// The input as it is looked at, piece by piece through an array: no heap is used, so that there is none to run out of.
ghost use Rattle.std.specs.Prelude.{◌≡◌, ◌≤◌, length};

use std::io::Read;

// Bytes of the window, and those that a case has at most: a longer case, which should not be, is cut at the window's end.
const WINDOW: usize = 262144;

const CASE: usize = 131072;

// What is in view is `bytes[at..end]`.
#[derive(Drop)]
pub struct Window {
    bytes: [u8; WINDOW],
    at: usize,
    end: usize,
    ghost ordered: { at ≤ end },
    ghost inside: { end ≤ 262144 },
}

// The bytes of a part come to the front. Both are parts of one array: there is no `copy_within` here, and no other copy takes parts that overlap.
fn slide(bytes: &mut [u8], at: usize, end: usize)
    requires { (at ≤ end) × (end ≤ length bytes.old) }
    ensures { length bytes.new ≡ length bytes.old }
{
    for i in 0..end - at {
        bytes[i] = bytes[at + i];
    }
}

// Reads behind a place, until the buffer is full, the input ends or reading fails; where that ends.
fn fill<R: Read>(input: &mut R, buffer: &mut [u8], from: usize) -> usize
    requires { from ≤ length buffer.old }
    ensures { result ≤ length buffer.old }
{
    let mut end = from;
    while end < buffer.len() {
        let more = input.read(&mut buffer[end..]).unwrap_or(0);
        if more == 0 {
            break;
        }
        end += more;
    }
    end
}

impl Window {
    pub fn new() -> Window {
        Window {
            bytes: [0; WINDOW],
            at: 0,
            end: 0,
        }
    }

    // What is in view. Where less than a whole case may be, more comes behind it.
    pub fn refilled<R: Read>(&mut self, input: &mut R) -> &[u8] {
        let (at, end) = (self.at, self.end);
        let left = end - at;
        if left < CASE {
            slide(&mut self.bytes, at, end);
            let end = fill(input, &mut self.bytes, left);
            self.at = 0;
            self.end = end;
        }
        &self.bytes[self.at..self.end]
    }

    // Only the last so many bytes stay in view.
    pub fn keep(&mut self, many: usize) {
        self.at = self.at.max(self.end.saturating_sub(many));
    }
}
