// The questions put to the length of a table and to a text before it is read; what stands at a place of a text, and where it ends. Which bytes are
// white space, and which belong to an atom, is said here alone.
ghost use Rattle.std.specs.Prelude.{◌≡◌, true, ℕ, ◌+◌, ◌*◌, ◌≤◌, ◌<◌, leb, length, get_or, take, drop};
ghost use Rattle.std.specs.Fn.{FnReturnsAt};
ghost use Rattle.rules.specs.Text.{plain, short};
ghost use Rattle.rules.specs.Lex.{white, kind, letter, letters};
ghost use Rattle.sexp.specs.Lexed.{is_letter, LineEnd, Skipped};

use cells::Span;

// Question 1, of one table: its length, and the least that is asked of it.
pub fn fits(len: usize, limit: usize) -> bool
    ensures { result ≡ leb limit len }
{
    limit <= len
}

// Question 2.
pub fn short(text: &[u8]) -> bool
    ensures { result ≡ short text.now }
{
    text.len() <= rules::LENGTH
}

// Question 3.
#[tactic(auto, using(crate::proofs::Plain::plain_cases))]
pub fn plain(text: &[u8]) -> bool
    ensures { result ≡ plain text.now }
{
    text.is_ascii()
}

// Whether a byte is white space.
#[tactic(auto, unfolding(rules::specs::Lex::white))]
pub fn white(b: u8) -> bool
    ensures { result ≡ white b }
{
    matches!(b, b' ' | b'\t'..=b'\r')
}

// Whether a byte belongs to an atom. Asked byte by byte: with `matches!` of the three bytes the lexer takes 10 % more instructions.
#[tactic(auto, unfolding(rules::specs::Lex::white, rules::specs::Lex::kind))]
fn is_letter(b: u8) -> bool
    ensures { result ≡ is_letter (kind b) }
{
    !white(b) && b != b'(' && b != b')' && b != b';'
}

// Whether the bytes are letters for sure: all lie above the brackets and white space and below 128, and none is `;`. Other letters get a no, and
// are then looked at one by one. There is no way out of the loop, so that the machine can take many bytes at a time: with `all`, which has one, a check of
// long names took 17 % longer. With `fold` the machine code is the same, and it is no plainer.
fn all_letters(block: &[u8]) -> bool
    ensures { result ≡ true → (k : ℕ) → k < length block.now → kind (get_or block.now k 0) ≡ letter }
{
    let mut letters = true;
    for b in block {
        letters &= (b')' < *b) & (*b <= 127) & (*b != b';');
    }
    letters
}

// Whether none of the bytes is 10; without a way out here too (with `all` a check of one long comment took 31 % more instructions).
fn within_line(block: &[u8]) -> bool
    ensures { result ≡ true → (k : ℕ) → k < length block.now → get_or block.now k 0 ≡ 10 → ⊥ }
{
    let mut within = true;
    for b in block {
        within &= *b != 10;
    }
    within
}

// Behind the blocks of 64 bytes that begin at a place and pass the test, one after the other.
fn skip_blocks<F: Fn(&[u8]) -> bool>(text: &[u8], from: usize, passes: F) -> usize
    requires callable { F.IsAlwaysCallable passes }
    requires start { from ≤ length text.now }
    ensures { (n : ℕ) × (result ≡ from + 64 * n) × (result ≤ length text.now)
        × ((k : ℕ) → k < n → FnReturnsAt F.Fn passes (take 64 (drop (from + 64 * k) text.now)) true) }
{
    let blocks = text[from..].chunks_exact(64);
    from + 64 * blocks.take_while(|block| passes(*block)).count()
}

// The place behind the atom that begins, or goes on, at a place. Most atoms are short, so that blocks are tried at each 64th place only.
pub fn atom_end(text: &[u8], start: usize) -> usize
    requires { start ≤ length text.now }
    ensures { result ≡ start + length (letters (drop start text.now)) }
{
    let mut at = start;
    // no search over the bytes, which has no blocks: with `take_while` and `count` a text of long names takes 64 % more instructions
    while at < text.len() {
        if is_letter(text[at]) {
            at += 1;
        } else {
            return at;
        }
        if at % 64 == 0 {
            at = skip_blocks(text, at, all_letters);
        }
    }
    at
}

// Where that atom stands.
pub fn atom_span(text: &[u8], start: usize) -> Span
    requires { start ≤ length text.now }
    ensures { result ≡ record { from = start; end = start + length (letters (drop start text.now)) } }
{
    Span {
        from: start,
        end: atom_end(text, start),
    }
}

// The bytes of that atom.
pub fn atom(text: &[u8], start: usize) -> &[u8]
    requires { start ≤ length text.now }
    ensures { result.now ≡ letters (drop start text.now) }
{
    let end = atom_end(text, start);
    &text[start..end]
}

// The place of the next byte 10, or the end of the text. Blocks begin at each 64th place, where the machine reads them fastest.
// Not one function with `atom_end`: handed the test of a byte and that of a block it is the same machine code, but its contract has to say of each
// place by which of the two it passed, which each caller makes again what its loop's invariant says now, to share six lines. With one test for both,
// of a slice of 1 or of 64 bytes, a check took 6 to 15 % more instructions.
fn line_end(text: &[u8], from: usize) -> usize
    requires { from ≤ length text.now }
    ensures { LineEnd text.now from result }
{
    let mut at = from;
    // no search over the bytes, which has no blocks: with `position` a text of comments takes 23 % more instructions
    while at < text.len() {
        if text[at] == 10 {
            return at;
        }
        at += 1;
        if at % 64 == 0 {
            at = skip_blocks(text, at, within_line);
        }
    }
    at
}

// The first place that is neither white space nor in a comment. Put into the loops over tokens, as `next` of `Tokens` is.
#[inline(always)]
pub(crate) fn skip(text: &[u8], from: usize) -> usize
    requires { from ≤ length text.now }
    ensures { Skipped text.now from result }
{
    let mut at = from;
    // no search over the bytes, which is no plainer: whether one is passed over depends on whether a comment is open before it, so that the test would carry
    // that from byte to byte, and no block of a comment could be passed over at once
    while at < text.len() {
        let b = text[at];
        if white(b) {
            at += 1;
        } else if b == b';' {
            at = line_end(text, at + 1);
        } else {
            return at;
        }
    }
    at
}
