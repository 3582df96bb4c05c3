// Tuples: drawn ones of few labels, items and minutes, a pool of them for each list, and words out of their range.
use crate::{digest, draws, plans, stores, total};
use interval::time::{Chronon, Interval};
use interval::tuple::Tuple;
use plan::Partitioning;

fn label(k: u64) -> u64 {
    total::either(k == 0, 217_180_147_158, total::either(k <= 8, 1, 2))
}

fn item(k: u64) -> u64 {
    total::either(k == 0, 999_999, k % 4)
}

// A minute from 0 to 45, the ends of the calendar, the last minute of a lane, or the first of one.
fn minute(p: Partitioning, k: u64, w: u64) -> u64 {
    let last = plans::cut(p, total::rest(w, p.count));
    let below = plans::cut(p, total::rest(w, total::less(p.count)));
    let at_lane = total::either(k <= 10, last, total::plus(below, 1));
    let within = total::either(k <= 14, at_lane, w % 46);
    total::either(k <= 1, 0, total::either(k <= 5, 99_999_999, within))
}

fn tuple(label: u64, item: u64, first: u64, last: u64) -> Tuple {
    Tuple {
        label,
        item,
        valid: Interval {
            first: Chronon(first),
            last: Chronon(last),
        },
    }
}

// The tuple whose words are all 0.
pub(crate) fn none() -> Tuple {
    tuple(0, 0, 0, 0)
}

// The minute that is drawn by the two numbers from `at` on.
fn drawn_minute(p: Partitioning, d: &[u64], at: u64) -> u64 {
    minute(
        p,
        draws::pick(d, at, 64),
        total::word(d, total::plus(at, 1)),
    )
}

// The last minute of a span that lasts the minimum, or one minute less or more; at least its first, and in the
// calendar.
fn lasting(minimum: u64, first: u64, w: u64) -> u64 {
    let end = total::less(total::less(total::plus(first, total::plus(minimum, w % 3))));
    let last = total::either(end < first, first, end);
    total::either(last < 99_999_999, last, 99_999_999)
}

// A tuple by the numbers from `at` on. Once in sixteen its minutes are as drawn, in any order; some last about the
// minimum, and most do where that is the largest; else they are set in order.
fn drawn(p: Partitioning, d: &[u64], at: u64) -> Tuple {
    let l = label(draws::pick(d, at, 16));
    let i = item(draws::pick(d, total::plus(at, 1), 16));
    let a = drawn_minute(p, d, total::plus(at, 2));
    let b = drawn_minute(p, d, total::plus(at, 4));
    let shape = draws::pick(d, total::plus(at, 6), 16);
    let as_drawn = shape == 0;
    let w = total::word(d, total::plus(at, 6)) / 16;
    let first = total::either(b < a, b, a);
    let last = total::either(
        shape < total::either(p.minimum < 1_440, 4, 12),
        lasting(p.minimum, first, w),
        total::either(b < a, a, b),
    );
    tuple(
        l,
        i,
        total::either(as_drawn, a, first),
        total::either(as_drawn, b, last),
    )
}

// A pool of 8 tuples: the plan by which they are drawn, and the 7 numbers of each.
#[derive(Clone, Copy)]
pub(crate) struct Pool {
    pub(crate) plan: Partitioning,
    pub(crate) numbers: [u64; 56],
}

fn pooled(pool: Pool, k: u64) -> Tuple {
    let numbers = pool.numbers;
    let p = pool.plan;
    drawn(p, &numbers, total::times(7, k))
}

// The tuple whose words start at a place.
fn read(words: &[u64], at: u64) -> Tuple {
    tuple(
        total::word(words, at),
        total::word(words, total::plus(at, 1)),
        total::word(words, total::plus(at, 2)),
        total::word(words, total::plus(at, 3)),
    )
}

// The one tuple or the other.
fn either(first: bool, t: Tuple, u: Tuple) -> Tuple {
    if first { t } else { u }
}

// A tuple that is stored on the side, in the lane that begins at a place; if it has none, one of the pool. Which it is
// does not go by their order.
fn stored(d: &[u64], pool: Pool, own: &[u64], base: u64) -> Tuple {
    let count = total::word(own, base);
    let t = read(
        own,
        digest::smallest(own, base, 4, count, total::word(d, 3)),
    );
    either(count < 1, pooled(pool, draws::pick(d, 3, 8)), t)
}

// A new tuple, or one of the pool, or one that is stored on the side. Half of those to insert are new; a delete takes
// mostly a stored one, and so does a repartition, whose new cuts may go by its last minute.
fn chosen(p: Partitioning, kind: u64, d: &[u64], pool: Pool, own: &[u64]) -> Tuple {
    let choice = draws::pick(d, 2, 8);
    let lane = draws::pick(d, 23, p.count);
    let t = stored(
        d,
        pool,
        own,
        stores::held(own, p.count, lane, stores::room(4, p.tuples)),
    );
    let old = either(
        choice < total::either((kind == 2) | (kind == 4), 2, 7),
        pooled(pool, draws::pick(d, 3, 8)),
        t,
    );
    either(choice < total::either(kind == 1, 4, 1), drawn(p, d, 4), old)
}

fn bad_label(label: u64, k: u64) -> u64 {
    let huge = total::either(k == 2, 18_446_744_073_709_551_615, label);
    total::either(k == 0, 0, total::either(k == 1, 217_180_147_159, huge))
}

fn bad_item(item: u64, k: u64) -> u64 {
    let huge = total::either(k == 1, 18_446_744_073_709_551_615, item);
    total::either(k == 0, 1_000_000, huge)
}

// A span entered backward, or one past the calendar that is backward (3) or not (4).
fn bad_first(first: u64, last: u64, k: u64) -> u64 {
    let past = total::either(k == 4, 100_000_000, first);
    let both = total::either(k == 3, 100_000_001, past);
    total::either(k == 0, total::plus(last, 1), both)
}

// A span past the calendar.
fn bad_last(last: u64, k: u64) -> u64 {
    let past = total::either((k == 1) | (k == 3) | (k == 4), 100_000_000, last);
    total::either(k == 2, 18_446_744_073_709_551_615, past)
}

// The tuple of a step, now and then with a word or several out of their range.
pub(crate) fn of_step(p: Partitioning, kind: u64, d: &[u64], pool: Pool, own: &[u64]) -> Tuple {
    let t = chosen(p, kind, d, pool, own);
    let valid = t.valid;
    let first = valid.first;
    let last = valid.last;
    let k = draws::pick(d, 13, 100);
    tuple(
        bad_label(t.label, draws::pick(d, 11, 100)),
        bad_item(t.item, draws::pick(d, 12, 80)),
        bad_first(first.0, last.0, k),
        bad_last(last.0, k),
    )
}
