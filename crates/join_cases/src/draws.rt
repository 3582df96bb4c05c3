// Drawn numbers: a linear congruential generator modulo 2 to the 31, of whose states the upper 15 bits are used.
use crate::total;

pub(crate) fn next(state: u64) -> u64 {
    (state % 2_147_483_648 * 1_103_515_245 + 12_345) % 2_147_483_648
}

pub(crate) fn value(state: u64) -> u64 {
    state / 65_536
}

// Fills the words with drawn numbers, and answers the state after them.
pub(crate) fn fill(state: u64, words: &mut [u64]) -> u64 {
    let mut s = state;
    for w in words.iter_mut() {
        s = next(s);
        *w = value(s);
    }
    s
}

// Drawn number k as a number below n.
pub(crate) fn pick(d: &[u64], k: u64, n: u64) -> u64 {
    total::rest(total::word(d, k), n)
}

// Drawn number k as one of the n numbers from another on.
pub(crate) fn from(d: &[u64], k: u64, least: u64, n: u64) -> u64 {
    total::plus(least, pick(d, k, n))
}
