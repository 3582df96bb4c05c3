// Digests: numbers below 1,000,003, a prime. Words are taken in one after the other; the records of a lane each by
// itself, and summed, so that their order is free.
use crate::stores::{ROW_WORDS, Stores, TUPLE_WORDS};
use crate::{plans, stores, total};
use plan::{PLACES, Partitioning};

pub(crate) fn mix(h: u64, w: u64) -> u64 {
    (h % 1_000_003 * 31 + w % 1_000_003) % 1_000_003
}

fn sum(a: u64, b: u64) -> u64 {
    (a % 1_000_003 + b % 1_000_003) % 1_000_003
}

// A square, so that a sum of records does not only count how often a word stands.
fn square(a: u64) -> u64 {
    total::times(a, a) % 1_000_003
}

// The words from a place on, up to another, in order.
pub(crate) fn run(h: u64, words: &[u64], from: u64, end: u64) -> u64 {
    let mut all = h;
    for i in from..end {
        all = mix(all, total::word(words, i));
    }
    all
}

// The record of so many words from a place on.
fn record(salt: u64, words: &[u64], at: u64, width: u64) -> u64 {
    square(mix(square(run(salt, words, at, total::plus(at, width))), 1))
}

// The place of the counted record with the smallest digest, in the lane that begins at a place. It does not depend on
// the order of the records.
pub(crate) fn smallest(words: &[u64], base: u64, width: u64, count: u64, salt: u64) -> u64 {
    let mut place = total::plus(base, 1);
    let mut best: u64 = 1_000_003;
    let mut at = total::plus(base, 1);
    for _ in 0..count {
        let h = record(salt, words, at, width);
        place = total::either(h < best, at, place);
        best = total::either(h < best, h, best);
        at = total::plus(at, width);
    }
    place
}

// All parts of a plan.
pub(crate) fn plan(p: Partitioning) -> u64 {
    let mut all = mix(0, p.count);
    for i in 0..PLACES {
        all = mix(all, plans::cut(p, i as u64));
    }
    mix(mix(mix(all, p.tuples), p.rows), p.minimum)
}

// 1 for a place that is counted and has no label, or is not counted and has one; else 0.
fn astray(k: u64, count: u64, label: u64) -> u64 {
    total::either((k < count) == (0 < label), 0, 1)
}

// The places of a lane, in any order.
fn places(words: &[u64], base: u64, width: u64, capacity: u64) -> u64 {
    let count = total::word(words, base);
    let mut all: u64 = 0;
    let mut at = total::plus(base, 1);
    for k in 0..capacity {
        all = sum(all, record(1, words, at, width));
        all = sum(all, astray(k, count, total::word(words, at)));
        at = total::plus(at, width);
    }
    all
}

// 1 if one of the n words from a place on is not what it was, else 0.
fn differ(before: &[u64], words: &[u64], base: u64, n: u64) -> u64 {
    let mut found: u64 = 0;
    for k in 0..n {
        let at = total::plus(base, k);
        found = total::either(total::word(before, at) == total::word(words, at), found, 1);
    }
    found
}

// The lanes of a store: how many, the words of a record, the records that a lane has place for, and how many words of
// each lane are compared with those before the call: all, or none if the order of its records is free.
#[derive(Clone, Copy)]
struct Lanes {
    count: u64,
    width: u64,
    capacity: u64,
    compared: u64,
}

// A lane: its count, its records, and 1 if it has the same records as before the call and not the same words.
fn lane(h: u64, l: Lanes, before: &[u64], words: &[u64], base: u64) -> u64 {
    let now = places(words, base, l.width, l.capacity);
    let summed = mix(mix(h, total::word(words, base)), now);
    let moved = differ(before, words, base, l.compared);
    mix(
        summed,
        total::either(now == places(before, base, l.width, l.capacity), moved, 0),
    )
}

// A store, as it was before the call and as it is, with the word after it.
fn store(h: u64, l: Lanes, before: &[u64], words: &[u64]) -> u64 {
    let room = stores::room(l.width, l.capacity);
    let mut all = h;
    let mut base: u64 = 0;
    for _ in 0..l.count {
        all = lane(all, l, before, words, base);
        base = total::plus(base, room);
    }
    mix(all, total::word(words, base))
}

// Which order is free: that of the tuples and that of the rows, in what a call left; and whether the order of the
// tuples can be told at all.
#[derive(Clone, Copy)]
pub(crate) struct Order {
    pub(crate) free_tuples: bool,
    pub(crate) free_rows: bool,
    pub(crate) told: bool,
}

fn lanes_of(count: u64, width: u64, capacity: u64, free: bool) -> Lanes {
    Lanes {
        count,
        width,
        capacity,
        compared: total::either(free, 0, stores::room(width, capacity)),
    }
}

// The rows store, as it was before the call and as it is.
pub(crate) fn rows_store(
    h: u64,
    p: Partitioning,
    free: bool,
    before: &[u64; ROW_WORDS],
    rows: &[u64; ROW_WORDS],
) -> u64 {
    store(h, lanes_of(p.count, 5, p.rows, free), before, rows)
}

// A tuple store, as it was before the call and as it is; where their order can be told, also its words in order.
fn tuple_store(
    h: u64,
    p: Partitioning,
    o: Order,
    before: &[u64; TUPLE_WORDS],
    words: &[u64; TUPLE_WORDS],
) -> u64 {
    let end = total::times(p.count, stores::room(4, p.tuples));
    let lanes = lanes_of(p.count, 4, p.tuples, o.free_tuples);
    run(
        store(h, lanes, before, words),
        words,
        0,
        total::either(o.told, end, 0),
    )
}

// The stores, as they were before the call and as they are.
pub(crate) fn all(h: u64, p: Partitioning, o: Order, before: Stores, s: Stores) -> u64 {
    let outer = s.outer;
    let inner = s.inner;
    let rows = s.rows;
    let old_outer = before.outer;
    let old_inner = before.inner;
    let old_rows = before.rows;
    let first = tuple_store(h, p, o, &old_outer, &outer);
    let second = tuple_store(first, p, o, &old_inner, &inner);
    rows_store(second, p, o.free_rows, &old_rows, &rows)
}
