// Which minutes of an outer tuple its rows cover: the next covered stretch, from a minute on (document 02, (h)).
//
// It is found by one scan of the inner tuples from the partition of that minute up: what ends before the minute covers
// nothing from there on. No memory is kept between two scans. The functions ask by their `requires` what a plan and a
// store that passed checks 1 to 5 give.
// The definitions are in specs/: Gaps (covered minutes, the gaps of a tuple), Longest (what they are), NextCovered.
#![tactic(auto)]

ghost use Rattle.std.specs.Prelude.{true, ◌≡◌, ◌-◌, ◌*◌, ◌≤◌, length};
ghost use Rattle.interval.specs.Time.{calendar_end};
ghost use Rattle.interval.specs.Tuple.{tuple_width, to};
ghost use Rattle.plan.specs.Plan.{plan_number};
ghost use Rattle.part.specs.Part.{room_of, counted, tuples_in};
ghost use Rattle.store.specs.Store.{tuple_room, sound_tuples};
ghost use Rattle.rows.specs.Join.{made_with};
ghost use Rattle.rows.specs.Partners.{Roomy, made_from};
ghost use Rattle.rows.specs.declared.Side.TheVariants.{Outer};
ghost use Rattle.coverage.specs.Gaps.{rows_of};
ghost use Rattle.coverage.specs.NextCovered.{nearer, nearest, next_covered};

use interval::time::{Chronon, Interval};
use interval::tuple::Tuple;
use plan::{PartitionIndex, Partitioning};
use rows::Side;

// Of the stretch found so far, from minute m on, and a row's interval, the one that starts first; where both start
// together, the one that goes further.
fn nearer(m: Chronon, best: Interval, v: Interval) -> Interval
    ensures { result ≡ nearer m.0 best v }
{
    if v.last.0 < m.0 {
        return best;
    }
    let start = interval::time::later(m, v.first);
    if best.first.0 < start.0 {
        return best;
    }
    if start.0 < best.first.0 {
        return Interval { first: start, ..v };
    }
    let last = interval::time::later(best.last, v.last);
    Interval { first: start, last }
}

// The nearest of a stretch found so far and the rows that d makes with the tuples of a partition.
fn covered_in(minimum: u64, d: Tuple, part: &[u64], m: Chronon, best: Interval) -> Interval
    requires { room_of tuple_width (counted part.now) ≤ length part.now }
    ensures { result ≡ nearest m.0 best (made_with minimum Outer d (tuples_in part.now)) }
{
    let n = part::count(part) as usize;
    let mut found = best;
    for k in 0..n {
        let pair = rows::oriented(minimum, Side::Outer, d, part::record_at(part, k));
        if let Some(row) = pair {
            found = nearer(m, found, row.valid);
        }
    }
    found
}

// The same with the partitions from `from` on, of `count` partitions of `room` words each.
fn covered_from(
    minimum: u64,
    d: Tuple,
    inner: &[u64],
    room: usize,
    count: u64,
    from: PartitionIndex,
    m: Chronon,
    best: Interval,
) -> Interval
    requires roomy { Roomy tuple_width room count inner.now }
    requires from_le_count { from.0 ≤ count }
    ensures { result ≡ nearest m.0 best
        (made_from minimum Outer d room inner.now from.0 (count - from.0)) }
{
    let mut found = best;
    for j in from.0..count {
        let part = store::partition(inner, room, PartitionIndex(j));
        found = covered_in(minimum, d, part, m, found);
    }
    found
}

// The next covered stretch of a legal tuple d, from minute m on; the minute after the tuple's last where there is none.
pub fn next_covered(p: Partitioning, d: Tuple, inner: &[u64], m: Chronon) -> Interval
    requires p_value { plan_number p ≡ 0 }
    requires inner_len { length inner.now ≡ p.count * tuple_room p }
    requires inner_value { sound_tuples p inner.now ≡ true }
    requires d_bound { to d ≤ calendar_end }
    ensures { result ≡ next_covered d (rows_of p inner.now d) m.0 }
{
    let past = Chronon(d.valid.last.0 + 1);
    let best = Interval {
        first: past,
        last: past,
    };
    let room = store::tuple_room(p);
    let from = plan::home(p, m);
    covered_from(p.minimum, d, inner, room, p.count, from, m, best)
}
