// Plans: drawn ones, legal and small, and what a disturbance makes of one.
use crate::{draws, minima, total};
use interval::time::Chronon;
use plan::{PLACES, Partitioning};

// The last minute of lane i, from 0.
pub(crate) fn cut(p: Partitioning, i: u64) -> u64 {
    let lasts = p.lasts;
    let at = i as usize;
    if at < PLACES {
        let last = lasts[at];
        return last.0;
    }
    0
}

fn cut_drawn(i: u64, count: u64, minute: u64, drawn: u64) -> u64 {
    let inner = total::either(i < count, minute, drawn);
    total::either(total::plus(i, 1) == count, 99_999_999, inner)
}

// How far apart cuts may lie, so that they spread over some 40 minutes.
fn spread(count: u64) -> u64 {
    if count < 1 { 1 } else { 84 / count }
}

// Cuts that rise, so far apart at most; the last is the end of the calendar. What is drawn past it is ignored.
fn cuts(state: u64, count: u64, apart: u64) -> [Chronon; PLACES] {
    let mut lasts = [Chronon(0); PLACES];
    let mut s = state;
    let mut minute: u64 = 0;
    for i in 0..PLACES {
        s = draws::next(s);
        let w = draws::value(s);
        minute = total::plus(minute, total::rest(w, apart));
        lasts[i] = Chronon(cut_drawn(i as u64, count, minute, w));
        minute = total::plus(minute, 1);
    }
    lasts
}

// A plan with 1 to 8 lanes, 1 to 8 tuples and 1 to 16 rows a lane, of which few are likelier. Once in sixteen seeds a
// wide one: 63 or 64 lanes, 1 tuple and 1 or 2 rows a lane; all its lanes but the last have one minute.
pub(crate) fn drawn(seed: u64, d: &[u64], state: u64) -> Partitioning {
    let wide = seed % 16 == 0;
    let count = total::either(wide, draws::from(d, 0, 63, 2), draws::from(d, 0, 1, 8));
    let lasts = cuts(state, count, spread(count));
    Partitioning {
        count,
        lasts,
        tuples: total::either(wide, 1, draws::from(d, 1, 1, 8)),
        rows: total::either(
            wide,
            draws::from(d, 2, 1, 2),
            draws::from(d, 2, 1, draws::from(d, 3, 2, 15)),
        ),
        minimum: minima::drawn(d),
    }
}

// The one plan or the other.
pub(crate) fn either(first: bool, p: Partitioning, q: Partitioning) -> Partitioning {
    if first { p } else { q }
}

pub(crate) fn with_rows(p: Partitioning, rows: u64) -> Partitioning {
    let mut q = p;
    q.rows = rows;
    q
}

pub(crate) fn with_minimum(p: Partitioning, minimum: u64) -> Partitioning {
    let mut q = p;
    q.minimum = minimum;
    q
}

fn with_cuts(p: Partitioning, lasts: [Chronon; PLACES]) -> Partitioning {
    let mut q = p;
    q.lasts = lasts;
    q
}

// The plan with another last minute at a place; past the places as it is.
fn with_cut(p: Partitioning, i: u64, minute: u64) -> Partitioning {
    let mut lasts = p.lasts;
    let at = i as usize;
    if at < PLACES {
        lasts[at] = Chronon(minute);
    }
    with_cuts(p, lasts)
}

// How many kinds of disturbance there are.
const DISTURBANCES: u64 = 16;

// The plan with a last minute disturbed, by the kinds from 3 to 7.
fn bent_cut(p: Partitioning, kind: u64, w: u64) -> Partitioning {
    let end = total::less(p.count);
    let low = total::rest(w, end);
    let above = cut(p, total::plus(low, 1));
    let some = total::either(kind == 7, low, total::rest(w, p.count));
    let place = total::either(kind < 5, end, some);
    let drawn = total::either(kind == 7, above, w / 8 % 48);
    let minute = total::either(
        kind == 3,
        99_999_998,
        total::either(kind == 4, 100_000_000, drawn),
    );
    with_cut(p, place, minute)
}

fn bent_count(n: u64, kind: u64) -> u64 {
    let more = total::either(kind == 2, total::plus(n, 1), n);
    total::either(kind == 0, 0, total::either(kind == 1, 65, more))
}

// A capacity disturbed by four kinds: none, one too many, the most, one more than it was.
fn bent_capacity(n: u64, most: u64, kind: u64, none: u64, many: u64, all: u64, more: u64) -> u64 {
    let one_more = total::either(kind == more, total::plus(n, 1), n);
    let full = total::either(kind == all, most, one_more);
    total::either(
        kind == none,
        0,
        total::either(kind == many, total::plus(most, 1), full),
    )
}

// The plan disturbed. A kind from 16 on leaves it as it is.
fn disturbed(p: Partitioning, kind: u64, w: u64) -> Partitioning {
    let bent = either(kind < 8, bent_cut(p, kind, w), p);
    let q = either(kind < 3, p, bent);
    let lasts = q.lasts;
    Partitioning {
        count: bent_count(p.count, kind),
        lasts,
        tuples: bent_capacity(p.tuples, 512, kind, 8, 9, 12, 14),
        rows: bent_capacity(p.rows, 4_096, kind, 10, 11, 13, 15),
        minimum: p.minimum,
    }
}

// How many lanes end before a minute: the lane that it is in, from 0.
fn lane_of(p: Partitioning, minute: u64) -> u64 {
    let mut lane: u64 = 0;
    for i in 0..p.count {
        lane = total::either(cut(p, i) < minute, total::plus(i, 1), lane);
    }
    lane
}

// The plan with one cut moved, that of a minute's lane or of the lane before it, so that the minute becomes the last of
// a lane or the first of the next.
fn near(p: Partitioning, d: &[u64], minute: u64) -> Partitioning {
    let lane = lane_of(p, minute);
    let own = (draws::pick(d, 29, 2) == 1) & (total::plus(lane, 1) < p.count);
    let first = draws::pick(d, 30, 2) == 1;
    with_cut(
        p,
        total::either(own, lane, total::less(lane)),
        total::either(first, total::less(minute), minute),
    )
}

// The new last minutes of a repartition: all drawn, or the old ones with one moved to a minute. They are disturbed
// five times in 32.
pub(crate) fn new_cuts(p: Partitioning, d: &[u64], minute: u64) -> [Chronon; PLACES] {
    let state = total::plus(total::times(total::word(d, 29), 65_536), total::word(d, 30));
    let apart = draws::from(d, 33, 1, total::plus(spread(p.count), 1));
    let new = with_cuts(p, cuts(state, p.count, apart));
    let drawn = draws::from(d, 31, 3, 32);
    let kind = total::either(drawn < 8, drawn, DISTURBANCES);
    let base = either(draws::pick(d, 34, 2) < 1, near(p, d, minute), new);
    let q = disturbed(base, kind, total::word(d, 32));
    let lasts = q.lasts;
    lasts
}

// Whether the plan of a step is disturbed in its count, its last minutes or a capacity.
pub(crate) fn is_disturbed(d: &[u64]) -> bool {
    draws::pick(d, 14, 256) < DISTURBANCES
}

// The plan of a step, but for its minimum. Half of those that are disturbed are disturbed once more, in a capacity.
pub(crate) fn of_step(p: Partitioning, d: &[u64]) -> Partitioning {
    let kind = draws::pick(d, 14, 256);
    let w = total::word(d, 15);
    let twice = disturbed(disturbed(p, kind, w), draws::from(d, 24, 8, 16), w);
    either(is_disturbed(d), twice, p)
}
