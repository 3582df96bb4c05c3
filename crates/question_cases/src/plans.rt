// Plans: drawn ones, legal and small, and what a disturbance makes of one.
use crate::total;
use interval::time::Chronon;
use plan::{PLACES, Partitioning};

// The last minute of lane i, from 0; past the lanes what stands there.
pub(crate) fn cut(p: Partitioning, i: u64) -> u64 {
    let lasts = p.lasts;
    let last = lasts[(i % 64) as usize];
    last.0
}

// A plan with 1 to 4 lanes of 1 to 8 rows; its minimum is 1 or, less often, 2. All last minutes but those of the last
// lane and of the places past it rise by 1 to 16 minutes.
pub(crate) fn drawn(d: [u64; 20]) -> Partitioning {
    let count = d[0] % 4 + 1;
    let first = d[1] % 16;
    let second = first % 16 + d[17] % 16 + 1;
    let third = second % 32 + d[18] % 16 + 1;
    let mut lasts = [Chronon(99_999_999); PLACES];
    lasts[0] = Chronon(total::either(1 < count, first, 99_999_999));
    lasts[1] = Chronon(total::either(2 < count, second, 99_999_999));
    lasts[2] = Chronon(total::either(3 < count, third, 99_999_999));
    Partitioning {
        count,
        lasts,
        tuples: d[2] % 512 + 1,
        rows: d[3] % 8 + 1,
        minimum: d[4] % 8 / 5 + 1,
    }
}

// How many lanes of a drawn plan end before a minute: the lane that it is in, from 0.
pub(crate) fn lane_of(p: Partitioning, minute: u64) -> u64 {
    let lasts = p.lasts;
    let first = lasts[0];
    let second = lasts[1];
    let third = lasts[2];
    let low = total::either(first.0 < minute, 1, 0);
    let middle = total::either(second.0 < minute, 2, low);
    total::either(third.0 < minute, 3, middle)
}

// The last minutes disturbed by the kinds from 16 to 19: the last one a minute early or late, one of them equal to the
// next or a minute late. Another kind writes into a place that no plan here uses.
fn bent_cuts(p: Partitioning, kind: u64, i: u64) -> [Chronon; PLACES] {
    let end = (p.count % 64 + 63) % 64;
    let next = cut(p, i % 64 + 1);
    let late = cut(p, i) % 1_000_000_000 + 1;
    let minutes = [99_999_998, 100_000_000, next, late];
    let places = [end, end, i, i];
    let k = (kind % 4) as usize;
    let at = total::either(kind / 4 == 4, places[k], 63);
    let mut lasts = p.lasts;
    lasts[(at % 64) as usize] = Chronon(minutes[k]);
    lasts
}

// The plan disturbed by one of 20 kinds: its count, tuple capacity, row capacity, minimum or a last minute. A kind from
// 20 on leaves it as it is.
pub(crate) fn bent(p: Partitioning, drawn: u64, w: u64) -> Partitioning {
    let kind = total::either(drawn < 20, drawn, 20);
    let lasts = bent_cuts(p, kind, w % 4);
    let lanes = p.count % 100 + 1;
    let rows = p.rows % 10_000 + 1;
    let minutes = p.minimum % 10_000 + 1;
    let values = [
        0, 65, 65, lanes, 0, 513, 0, 513, 0, 4_097, rows, rows, 0, 1_441, 1_440, minutes,
    ];
    let mut parts = [p.count, p.tuples, p.rows, p.minimum, 0, 0, 0, 0];
    parts[(kind / 4 % 8) as usize] = values[(kind % 16) as usize];
    Partitioning {
        count: parts[0],
        lasts,
        tuples: parts[1],
        rows: parts[2],
        minimum: parts[3],
    }
}
