// The minimum of a plan: the fewest minutes that a row may last. That of a list, which is legal, and that of a step's
// call, which now and then is another: out of range, or near the minutes of a row that is stored.
use crate::stores::Stores;
use crate::{digest, draws, plans, stores, total};
use plan::Partitioning;

// The minimum of a list: often 1, else from 2 to 13, of which the small ones are likelier, and once in sixteen the
// largest.
pub(crate) fn drawn(d: &[u64]) -> u64 {
    let k = draws::pick(d, 4, 16);
    let few = draws::from(d, 5, 2, draws::from(d, 6, 1, 12));
    total::either(k < 5, 1, total::either(k == 15, 1_440, few))
}

// Whether the minimum of a step's call is another than that of its wall: now and then, and half of the times that its
// plan is disturbed.
pub(crate) fn is_other(d: &[u64]) -> bool {
    draws::pick(d, 35, 64) < total::either(plans::is_disturbed(d), 32, 6)
}

// A minimum in place of another, for a wall with a row that lasts so many minutes.
fn other(minimum: u64, minutes: u64, k: u64) -> u64 {
    let more = total::plus(minutes, 1);
    let huge = 18_446_744_073_709_551_615;
    let words = [
        0,
        0,
        1_441,
        1_441,
        huge,
        4_294_967_297,
        1_440,
        1,
        total::plus(minimum, 1),
        total::less(minimum),
        minutes,
        minutes,
        more,
        more,
        more,
        total::less(minutes),
    ];
    total::word(&words, k)
}

// The minutes of a stored row, in the first lane that holds one from a drawn lane on; 1 if none does. Which row of the
// lane it is does not go by their order.
fn stored(p: Partitioning, d: &[u64], rows: &[u64]) -> u64 {
    let room = stores::room(5, p.rows);
    let base = stores::held(rows, p.count, draws::pick(d, 17, p.count), room);
    let count = total::word(rows, base);
    let at = digest::smallest(rows, base, 5, count, total::word(d, 19));
    let first = total::word(rows, total::plus(at, 3));
    let last = total::word(rows, total::plus(at, 4));
    total::plus(total::gap(first, last), 1)
}

// The plan of a step's call with its minimum, on a wall of that plan with these stores.
pub(crate) fn of_step(wall: Partitioning, q: Partitioning, d: &[u64], s: Stores) -> Partitioning {
    let rows = s.rows;
    let drawn = other(q.minimum, stored(wall, d, &rows), draws::pick(d, 36, 16));
    plans::with_minimum(q, total::either(is_other(d), drawn, q.minimum))
}
