// One word of one store changed before a call, as if another had written it. Which record of a lane it is goes by the
// records' digests and not by their order, which is free for rows, and after a repartition for tuples.
use crate::stores::Stores;
use crate::{digest, draws, stores, total};
use plan::Partitioning;

// A word of a counted record.
fn in_record(words: &[u64], base: u64, width: u64, count: u64, d: &[u64]) -> u64 {
    let record = digest::smallest(words, base, width, count, draws::pick(d, 19, 32_768));
    total::plus(record, draws::pick(d, 20, width))
}

// The lane's count word, a word after the counted records, or a word of a counted record.
fn place(words: &[u64], base: u64, width: u64, capacity: u64, d: &[u64]) -> u64 {
    let count = total::word(words, base);
    let kind = draws::pick(d, 18, 12);
    let record = in_record(words, base, width, count, d);
    let last = total::plus(base, total::times(width, capacity));
    let after = total::either(count < capacity, last, base);
    let held = total::either(0 < count, record, base);
    total::either(kind == 0, base, total::either(kind == 1, after, held))
}

// The word that is put in place of another.
fn changed(w: u64, k: u64) -> u64 {
    let more = total::plus(w, 1);
    let less = total::less(w);
    let huge = 18_446_744_073_709_551_615;
    let words = [
        more,
        more,
        more,
        more,
        more,
        more,
        less,
        less,
        less,
        less,
        0,
        1,
        2,
        1_000_000,
        100_000_000,
        huge,
    ];
    total::word(&words, k)
}

// Meddles with a store of so many lanes.
fn meddle(words: &mut [u64], lanes: u64, width: u64, capacity: u64, d: &[u64]) {
    let base = stores::held(
        words,
        lanes,
        draws::pick(d, 17, lanes),
        stores::room(width, capacity),
    );
    let at = place(words, base, width, capacity, d);
    let w = changed(total::word(words, at), draws::pick(d, 21, 16));
    total::put(words, at, w);
}

// Whether a step meddles with a word.
pub(crate) fn is_met(d: &[u64]) -> bool {
    draws::pick(d, 16, 64) < 12
}

// The stores before the call of a step, with the word changed, if the step does.
pub(crate) fn of_step(p: Partitioning, d: &[u64], s: Stores) -> Stores {
    let kind = draws::pick(d, 16, 64);
    if kind < 2 {
        let mut tuples = stores::side(s, kind);
        meddle(&mut tuples, p.count, 4, p.tuples, d);
        return stores::with_side(s, kind, tuples);
    }
    if kind < 12 {
        let mut rows = s.rows;
        meddle(&mut rows, p.count, 5, p.rows, d);
        return stores::with_rows(s, rows);
    }
    s
}
