// Sets of numbers as words of 64 bits: VARIABLEWORDS of them for variables, FACTWORDS for facts, RULEWORDS for rules, TERMWORDS for
// terms, which are the most. A contract speaks of the set (`holds`), never of a bit. A set is emptied by `cells::clear`. No set of the
// library holds them: there is no heap, and C lends the tables. Where two sets must be as long as each other, a clause asks it: an array of a const
// length would ask more, as these functions are public, and `join_footing` of `state` has a slice.
ghost use Rattle.std.specs.Prelude.{◌≡◌, ◌+◌, ◌*◌, ◌≤◌, ◌<◌, eqb, length};
ghost use Rattle.std.proofs.lemmas.List.Edits.{sets};
ghost use Rattle.rules.specs.Limits.{TERMS, TERMWORDS};
ghost use Rattle.rules.specs.Find.{union, minus, least, rising, rising_from};
ghost use Rattle.terms.specs.Sets.{holds, plus, shifted, counted_from_1};

// v joins the set.
pub fn insert(set: &mut [u64], v: usize)
    requires { v < 64 * length set.old }
    ensures { holds set.new ≡ plus v (holds set.old) }
{
    set[v / 64] |= 1 << (v % 64);
}

// Whether v is in the set.
pub fn has(set: &[u64], v: usize) -> bool
    requires { v < 64 * length set.now }
    ensures { result ≡ holds set.now v }
{
    let w = set[v / 64];
    (w >> (v % 64)) & 1 == 1
}

// The members of the other join the set. This and `minus_from` differ in the operation: one with a closure is no plainer. The words go by
// number, since behind a zip with `iter_mut` nothing is known of what was written.
pub fn union_into(set: &mut [u64], other: &[u64])
    requires { length set.old ≡ length other.now }
    ensures { holds set.new ≡ union (holds set.old) (holds other.now) }
{
    for (i, added) in other.iter().enumerate() {
        set[i] |= added;
    }
}

// The members of the other leave the set.
pub fn minus_from(set: &mut [u64], other: &[u64])
    requires { length set.old ≡ length other.now }
    ensures { holds set.new ≡ minus (holds set.old) (holds other.now) }
{
    for (i, removed) in other.iter().enumerate() {
        set[i] &= !removed;
    }
}

// The lowest of a that is not in b; none where all of a is in b. A `for`: a chain (`zip`, `enumerate`, `find_map`) would carry the word and its
// place through it, and is no plainer.
pub fn lowest_outside(a: &[u64], b: &[u64]) -> Option<usize>
    requires { (length a.now ≡ length b.now) × (length a.now ≤ TERMWORDS) }
    ensures { counted_from_1 result ≡ least (64 * length a.now) (minus (holds a.now) (holds b.now)) }
{
    for (i, (left, right)) in a.iter().zip(b).enumerate() {
        let outside = left & !right;
        if outside != 0 {
            return Some(i * 64 + outside.trailing_zeros() as usize);
        }
    }
    None
}

// Whether all of a is in b: public and promised; nothing here calls it.
pub fn subset(a: &[u64], b: &[u64]) -> bool
    requires { (length a.now ≡ length b.now) × (length a.now ≤ TERMWORDS) }
    ensures { result ≡ eqb (least (64 * length a.now) (minus (holds a.now) (holds b.now))) 0 }
{
    lowest_outside(a, b).is_none()
}

// How many members the set has.
pub fn count(set: &[u64]) -> usize
    requires { length set.now ≤ TERMWORDS }
    ensures { result ≡ length (rising (64 * length set.now) (holds set.now)) }
{
    set.iter().map(|word| word.count_ones() as usize).sum()
}

// The members of a word that stands from `base` on are written by rising number from cell `n` on; what comes back is where they end.
fn write_word(word: u64, base: usize, out: &mut [u32], n: usize) -> usize
    requires { (base + 64 ≤ TERMS) × (n + length (rising_from base 64 (shifted base word)) ≤ length out.old) }
    ensures { (result ≡ n + length (rising_from base 64 (shifted base word))) × (out.new ≡ sets out.old n (rising_from base 64 (shifted base word))) }
{
    let mut left = word;
    let mut at = base;
    let mut k = n;
    // No count: each turn goes on to the next bit that is set.
    while left != 0 {
        let skip = left.trailing_zeros();
        at += skip as usize;
        out[k] = at as u32;
        k += 1;
        at += 1;
        left = (left >> skip) >> 1;
    }
    k
}

// The members are written out by rising number from the first cell on; what comes back is how many they are.
pub fn write_out(set: &[u64], out: &mut [u32]) -> usize
    requires set_len_bound { length set.now ≤ TERMWORDS }
    requires set_in_bounds { length (rising (64 * length set.now) (holds set.now)) ≤ length out.old }
    ensures { (result ≡ length (rising (64 * length set.now) (holds set.now))) × (out.new ≡ sets out.old 0 (rising (64 * length set.now) (holds set.now))) }
{
    let mut n = 0;
    for (i, word) in set.iter().enumerate() {
        n = write_word(*word, i * 64, out, n);
    }
    n
}
