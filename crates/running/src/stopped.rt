// Where the forms of a check end: at a question for which one of its texts is refused, or with all of the proof gone through.
ghost use Rattle.std.specs.Prelude.{◌≡◌};

use counts::Counts;
use questions::{Refused, Text};

// The text, and the question for which it is refused, behind so many forms.
#[derive(Clone, Copy, Debug, PartialEq, Eq)]
pub struct Stopped {
    pub text: Text,
    pub refused: Refused,
}

impl Stopped {
    // What is refused, in that text.
    pub fn left_in(text: Text, refused: Refused) -> Stopped
        ensures { result ≡ record { text = text; refused = refused } }
    {
        Stopped { text, refused }
    }
}

// So many forms of the proof, and what they count.
#[derive(Clone, Copy, Debug, PartialEq, Eq)]
pub struct Proved {
    pub forms: usize,
    pub counts: Counts,
}
