// Stored cases, each cut out of what is in view. What is not there counts as empty.
use running::texts::Texts;

// Its parts. The facts and footings that are recorded stand one behind the other; none where whatever they are will do.
#[derive(Clone, Copy)]
pub struct Case<'a> {
    pub name: &'a [u8],
    pub texts: Texts<'a>,
    pub answer: &'a [u8],
    pub recorded: Option<&'a [u8]>,
}

// A number with one more digit. Of one with more than nine digits the first nine count.
fn with_digit(number: usize, digit: u8) -> usize {
    match (digit as char).to_digit(10) {
        Some(digit) if number < 100000000 => 10 * number + digit as usize,
        _ => number,
    }
}

// The number in front, in decimal, and what stands behind it and the byte that ends it.
fn cut_number(text: &[u8]) -> (usize, &[u8]) {
    let (digits, rest) = match text.iter().position(|byte| !byte.is_ascii_digit()) {
        Some(end) => (
            text.get(..end).unwrap_or(&[]),
            text.get(end + 1..).unwrap_or(&[]),
        ),
        None => (text, [0u8; 0].as_slice()),
    };
    let number = digits
        .iter()
        .fold(0, |number, digit| with_digit(number, *digit));
    (number, rest)
}

// So many bytes in front, and what stands behind them.
fn cut_part(text: &[u8], many: usize) -> (&[u8], &[u8]) {
    text.split_at(many.min(text.len()))
}

// What stands behind the header, which is its length on a line, and so many bytes.
pub fn behind_header(text: &[u8]) -> &[u8] {
    let (many, text) = cut_number(text);
    cut_part(text, many).1
}

// The case in front, and what stands behind it. A case is its parts' lengths on a line, the parts and a line feed.
pub fn cut_case(text: &[u8]) -> (Case<'_>, &[u8]) {
    let mut text = text;
    let mut parts = [0usize; 7];
    for many in parts.iter_mut() {
        let (number, rest) = cut_number(text);
        *many = number;
        text = rest;
    }
    let [name, theory, goals, proof, answer, facts, footings] = parts;
    let (name, text) = cut_part(text, name);
    let (theory, text) = cut_part(text, theory);
    let (goals, text) = cut_part(text, goals);
    let (proof, text) = cut_part(text, proof);
    let (answer, text) = cut_part(text, answer);
    let (recorded, text) = cut_part(text, facts.saturating_add(footings));
    let (_, text) = cut_part(text, 1);
    let case = Case {
        name,
        texts: Texts {
            theory,
            goals,
            proof,
        },
        answer,
        // a case that does not store them has `-` for the facts and `-` for the footings
        recorded: Some(recorded).filter(|recorded| !matches!(recorded, [b'-', _])),
    };
    (case, text)
}
