// A finished check, lent to be read: its texts, its answer and its tables, each as the rows that docs/TABLES.md has. A row that is not there, and a place
// outside of a text, are read as none.
use facts::Fact;
use running::finish::Report;
use running::refusal::Refusal;
use running::texts::Texts;

#[derive(Clone, Copy)]
pub struct Checked<'a> {
    pub texts: Texts<'a>,
    pub answer: Result<Report, Refusal>,
    pub symbols: &'a [[u32; 4]],
    pub rules: &'a [[u32; 6]],
    pub vars: &'a [[u32; 4]],
    pub index: &'a [u32],
    pub words: &'a [u32],
    pub defs: &'a [[u32; 3]],
    // of goals
    pub rows: &'a [[u32; 6]],
    pub lists: &'a [u32],
    pub missing: &'a [u32],
    pub facts: &'a [Fact],
}
