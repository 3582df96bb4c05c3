// Arithmetic and reading that answer for any words. Sums and products are exact for what the cases hold: words below
// 1,000,000,000,000 in sums, numbers below 1,000,003 in products.
ghost use Rattle.std.specs.Prelude.{◌≤◌};

// The word at a place; 0 past the end.
pub(crate) fn word(words: &[u64], at: u64) -> u64 {
    let i = at as usize;
    if i < words.len() { words[i] } else { 0 }
}

// Sets the word at a place; past the end nothing.
pub(crate) fn put(words: &mut [u64], at: u64, w: u64) {
    let i = at as usize;
    if i < words.len() {
        words[i] = w;
    }
}

pub(crate) fn plus(a: u64, b: u64) -> u64 {
    a % 1_000_000_000_000 + b % 1_000_000_000_000
}

// One less; 0 of 0.
pub(crate) fn less(a: u64) -> u64 {
    if a < 1 { 0 } else { a - 1 }
}

// How far a number lies above another; 0 if it does not.
pub(crate) fn gap(low: u64, high: u64) -> u64 {
    if high < low { 0 } else { high - low }
}

pub(crate) fn times(a: u64, b: u64) -> u64 {
    (a % 1_000_003) * (b % 1_000_003)
}

// The remainder; 0 where there is none.
pub(crate) fn rest(a: u64, n: u64) -> u64 {
    if n < 1 { 0 } else { a % n }
}

// The one number or the other. What is chosen from is worked out before, so that no function has many ways through it.
pub(crate) fn either(first: bool, a: u64, b: u64) -> u64 {
    if first { a } else { b }
}

// The first words, at most so many.
pub(crate) fn lent(words: &[u64], n: u64) -> &[u64] {
    let a = at_most(n, words.len());
    &words[0..a]
}

pub(crate) fn lent_mut(words: &mut [u64], n: u64) -> &mut [u64] {
    let a = at_most(n, words.len());
    &mut words[0..a]
}

// A length, cut to what there is.
pub(crate) fn at_most(n: u64, most: usize) -> usize
    ensures { result ≤ most }
{
    let i = n as usize;
    if i < most { i } else { most }
}
