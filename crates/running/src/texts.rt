// The three texts of a check, which travel together.

// The theory, the goals, the proof.
#[derive(Clone, Copy)]
pub struct Texts<'a> {
    pub theory: &'a [u8],
    pub goals: &'a [u8],
    pub proof: &'a [u8],
}
