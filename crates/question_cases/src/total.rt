// Arithmetic and reading that answer for any words. Products are exact for what the cases hold, numbers below
// 1,000,003.
ghost use Rattle.std.specs.Prelude.{◌≤◌};

// The word at a place; 0 past the end.
pub(crate) fn word(words: &[u64], at: u64) -> u64 {
    let i = at as usize;
    if i < words.len() { words[i] } else { 0 }
}

// Sets the word at a place; past the end nothing.
pub(crate) fn put(words: &mut [u64], at: u64, w: u64) {
    let i = at as usize;
    if i < words.len() {
        words[i] = w;
    }
}

pub(crate) fn times(a: u64, b: u64) -> u64 {
    (a % 1_000_003) * (b % 1_000_003)
}

// The one number or the other. What is chosen from is worked out before, so that no function has many ways through it.
pub(crate) fn either(first: bool, a: u64, b: u64) -> u64 {
    if first { a } else { b }
}

// A length, cut to what there is.
pub(crate) fn at_most(n: u64, most: usize) -> usize
    ensures { result ≤ most }
{
    let i = n as usize;
    if i < most { i } else { most }
}

// The first words, at most so many.
pub(crate) fn lent(words: &[u64], n: u64) -> &[u64] {
    let a = at_most(n, words.len());
    &words[0..a]
}

pub(crate) fn lent_mut(words: &mut [u64], n: u64) -> &mut [u64] {
    let a = at_most(n, words.len());
    &mut words[0..a]
}
