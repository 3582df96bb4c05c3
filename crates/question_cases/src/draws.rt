// Drawn numbers: a linear congruential generator modulo 2 to the 31, of whose states the upper 15 bits are used.

// Drawn numbers, and the state after them.
#[derive(Clone, Copy)]
pub(crate) struct Drawn {
    pub(crate) numbers: [u64; 8],
    pub(crate) state: u64,
}

pub(crate) fn next(state: u64) -> u64 {
    (state % 2_147_483_648 * 1_103_515_245 + 12_345) % 2_147_483_648
}

// Fills the words with drawn numbers, and answers the state after them.
pub(crate) fn fill(state: u64, words: &mut [u64]) -> u64 {
    let mut s = state;
    for w in words.iter_mut() {
        s = next(s);
        *w = s / 65_536;
    }
    s
}

pub(crate) fn eight(state: u64) -> Drawn {
    let mut numbers = [0u64; 8];
    let after = fill(state, &mut numbers);
    Drawn {
        numbers,
        state: after,
    }
}
