// Digests: numbers below 1,000,003, a prime. Words are taken in one after the other.
use checks::Answer;

// All words in order.
fn run(h: u64, words: &[u64]) -> u64 {
    let mut all = h;
    for w in words {
        all = (all % 1_000_003 * 31 + *w % 1_000_003) % 1_000_003;
    }
    all
}

// What a call answered, and the words after it.
pub(crate) fn told(h: u64, a: Answer, words: &[u64]) -> u64 {
    let counts = match a {
        Ok(counted) => [0, counted.changed, counted.examined],
        Err(refusal) => [refusal.into(), 0, 0],
    };
    run(run(h, &counts), words)
}
