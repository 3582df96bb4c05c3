// Rows stores: drawn rows, each put into the lane of its last minute, and a word meddled with.
use crate::{draws, plans, total};
use plan::Partitioning;

// The words that a rows store is lent from: those of 4 lanes of 8 rows, and some more.
pub(crate) const ROW_WORDS: usize = 168;

// Where a lane begins; at the plan's count, the words of the store.
pub(crate) fn base(p: Partitioning, lane: u64) -> u64 {
    total::times(lane, p.rows % 9 * 5 + 1)
}

// A minute from 0 to 29, the ends of the calendar, about the end of a lane.
fn minute(p: Partitioning, k: u64, w: u64) -> u64 {
    let cut = plans::cut(p, w % 4);
    let next = (cut % 100_000_000 + 1) % 100_000_000;
    let some = w % 30;
    let words = [
        0, 99_999_999, cut, cut, next, some, some, some, some, some, some, some, some, some, some,
        some,
    ];
    words[(k % 16) as usize]
}

// The row drawn by 8 numbers.
fn drawn_row(p: Partitioning, d: [u64; 8]) -> [u64; 5] {
    let labels = [1, 1, 1, 2, 2, 217_180_147_158];
    let a = minute(p, d[1], d[2]);
    let b = minute(p, d[3], d[4]);
    [
        labels[(d[0] % 6) as usize],
        d[5] % 4,
        d[6] % 4,
        total::either(b < a, b, a),
        total::either(b < a, a, b),
    ]
}

// Adds the row in its lane, if that has place and the row lasts the minimum.
fn add(words: &mut [u64], p: Partitioning, row: [u64; 5]) {
    let base = base(p, plans::lane_of(p, row[4]));
    let n = total::word(words, base);
    let long = row[3] % 1_000_000_000 + p.minimum % 10_000 <= row[4] % 1_000_000_000 + 1;
    let at = base % 1_000 + n % 8 * 5;
    if long & (n < p.rows) {
        total::put(words, base, n % 8 + 1);
        total::put(words, at + 1, row[0]);
        total::put(words, at + 2, row[1]);
        total::put(words, at + 3, row[2]);
        total::put(words, at + 4, row[3]);
        total::put(words, at + 5, row[4]);
    }
}

// Adds up to n rows; one in four stands twice. Answers the state of the draws after them.
pub(crate) fn fill(words: &mut [u64], p: Partitioning, state: u64, n: u64) -> u64 {
    let mut s = state;
    for k in 0..n {
        let d = draws::eight(s);
        let numbers = d.numbers;
        add(words, p, drawn_row(p, numbers));
        s = total::either(k % 4 == 3, s, d.state);
    }
    s
}

// Changes a word, if the numbers drawn say so: any word, or the count of a lane.
pub(crate) fn meddle(words: &mut [u64], p: Partitioning, d: [u64; 20]) {
    let at = total::either(d[6] % 4 < 1, base(p, d[5] % 4), d[7] % 168);
    let w = total::word(words, at);
    let more = w % 1_000_000_000_000 + 1;
    let less = (w % 1_000_000_000_000 + 999_999_999_999) % 1_000_000_000_000;
    let huge = 18_446_744_073_709_551_615;
    let changes = [more, more, less, less, 0, 100_000_000, huge];
    if d[8] % 6 < 1 {
        total::put(words, at, changes[(d[9] % 7) as usize]);
    }
}
