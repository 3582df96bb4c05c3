// Lists of questions: drawn near what is stored and at the ends of the ranges, as structs and as words.
use crate::stores::ROW_WORDS;
use crate::{draws, plans, stores, total};
use interval::time::Chronon;
use plan::Partitioning;
use question::Question;

// The most questions of a list.
pub(crate) const QUESTIONS: usize = 8;

// The words that a list is lent from.
pub(crate) const WORDS: usize = 26;

// A minute about a row's first and last, about the end of a lane, at the ends of the calendar or past it, or any from 0
// to 45.
fn minute(p: Partitioning, first: u64, last: u64, k: u64, w: u64) -> u64 {
    let cut = plans::cut(p, w % 4);
    let huge = 18_446_744_073_709_551_615;
    let some = w % 46;
    let words = [
        (first % 1_000_000_000 + 999_999_999) % 1_000_000_000,
        first,
        first % 1_000_000_000 + 1,
        (last % 1_000_000_000 + 999_999_999) % 1_000_000_000,
        last,
        last % 1_000_000_000 + 1,
        cut,
        cut % 1_000_000_000 + 1,
        0,
        99_999_999,
        100_000_000,
        huge,
        some,
        some,
        some,
        some,
    ];
    words[(k % 16) as usize]
}

// The earliest minute of a list's questions: mostly 0, else about the end of a lane, the last of the calendar, or past
// it.
pub(crate) fn earliest(p: Partitioning, k: u64, w: u64) -> u64 {
    let cut = plans::cut(p, w % 4);
    let next = cut % 1_000_000_000 + 1;
    let words = [
        cut,
        next,
        next,
        99_999_999,
        99_999_999,
        100_000_000,
        0,
        0,
        0,
        0,
        0,
        0,
        0,
        0,
        0,
        0,
    ];
    words[(k % 16) as usize]
}

// The question drawn by 8 numbers, about one of the first rows of a lane; its answer is a drawn word, or the largest.
fn question(p: Partitioning, rows: [u64; ROW_WORDS], d: [u64; 8], earliest: u64) -> Question {
    let lane = total::either(d[0] % 4 < p.count, d[0] % 4, 0);
    let row = (stores::base(p, lane) % 124 + d[1] % 3 * 5 + 1) as usize;
    let m = minute(p, rows[row + 3], rows[row + 4], d[3], d[4]);
    let l = rows[row];
    let huge = 18_446_744_073_709_551_615;
    let labels = [
        1,
        1,
        1,
        2,
        2,
        3,
        0,
        217_180_147_158,
        217_180_147_159,
        huge,
        l,
        l,
        l,
        l,
        l,
        l,
    ];
    let answers = [huge, d[5], d[5], d[5]];
    Question {
        label: labels[(d[2] % 16) as usize],
        minute: Chronon(total::either(m < earliest, earliest, m)),
        answer: answers[(d[5] % 4) as usize],
    }
}

// The questions of a list.
pub(crate) fn drawn(
    p: Partitioning,
    rows: [u64; ROW_WORDS],
    state: u64,
    earliest: u64,
) -> [Question; QUESTIONS] {
    let none = Question {
        label: 0,
        minute: Chronon(0),
        answer: 0,
    };
    let mut qs = [none; QUESTIONS];
    let mut s = state;
    for i in 0..QUESTIONS {
        let d = draws::eight(s);
        let numbers = d.numbers;
        qs[i] = question(p, rows, numbers, earliest);
        s = d.state;
    }
    qs
}

// The questions as words, three each; the words after them are 0.
pub(crate) fn as_words(qs: [Question; QUESTIONS]) -> [u64; WORDS] {
    let mut ws = [0u64; WORDS];
    for i in 0..24 {
        let q = qs[i / 3];
        let words = [q.label, q.minute.0, q.answer];
        ws[i] = words[i % 3];
    }
    ws
}
