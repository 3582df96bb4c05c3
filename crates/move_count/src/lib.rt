// Checks 9 and 10 of a repartition, for one store: whether its records, tuples or rows by their width, fit the
// partitions (document 01: lanes) of another plan. Each record is counted at its home, found by bisecting the cuts, in
// one pass over the store; the counts are 64 words by value. Cost: at most six comparisons for each record.
#![tactic(auto)]

ghost use Rattle.std.specs.Prelude.{true, ◌≡◌, ◌≤◌, ◌<◌, ltb, length, take};
ghost use Rattle.std.specs.List.{list_any};
ghost use Rattle.plan.specs.Plan.{plan_number, cover, cuts_of, home_of};
ghost use Rattle.moves.specs.Moves.{Counts, stored_records};
ghost use Rattle.move_count.specs.Crowding.{Countable, Tallied, PartCountable, PartTallied, Homed, overfull};

use interval::time::Chronon;
use plan::{PLACES, PartitionIndex, Partitioning};

// The last chronons of a legal plan's partitions, in the first places.
fn cuts_of(q: Partitioning) -> [u64; PLACES]
    requires { plan_number q ≡ 0 }
    ensures { take q.count result ≡ cuts_of q }
{
    let lasts = q.lasts;
    let mut cuts = [0u64; PLACES];
    for i in 0..q.count as usize {
        let last = lasts[i];
        cuts[i] = last.0;
    }
    cuts
}

// The partition that contains a chronon of the calendar, by bisecting the cuts.
fn home_in(cuts: &[u64], m: Chronon) -> PartitionIndex
    requires cuts_value { cover cuts.now ≡ true }
    requires m_in_bounds { home_of cuts.now m.0 < length cuts.now }
    ensures { result.0 ≡ home_of cuts.now m.0 }
{
    let mut low: usize = 0;
    let mut high = cuts.len() - 1;
    // Bisecting: no counter bounds it.
    while low < high {
        let middle = low + (high - low) / 2;
        if cuts[middle] < m.0 {
            low = middle + 1;
        } else {
            high = middle;
        }
    }
    PartitionIndex(low as u64)
}

// Counts each record of a partition at its home.
fn count_part(part: &[u64], width: usize, cuts: &[u64], counts: &mut [u64])
    requires { PartCountable width part.now cuts.now counts.old }
    ensures { PartTallied width part.now cuts.now counts.old
        counts.new }
{
    let held = part::count(part) as usize;
    for k in 0..held {
        let last = part[width * (k + 1)];
        let i = home_in(cuts, Chronon(last));
        let home = i.0 as usize;
        counts[home] += 1;
    }
}

// Counts each record of a store at its home.
fn count_store(store: &[u64], width: usize, room: usize, cuts: &[u64], counts: &mut [u64])
    requires { Countable width room store.now cuts.now counts.old }
    ensures { Tallied width room store.now cuts.now counts.new }
{
    for j in 0..cuts.len() {
        count_part(
            store::partition(store, room, PartitionIndex(j as u64)),
            width,
            cuts,
            counts,
        );
    }
}

// Whether some number passes the capacity.
fn some_above(counts: &[u64], capacity: u64) -> bool
    ensures { result ≡ list_any (λ c. ltb capacity c) counts.now }
{
    counts.iter().any(|count| capacity < *count)
}

// Whether a partition of q would get more of a store's records than its capacity.
pub fn overfull(store: &[u64], width: usize, room: usize, q: Partitioning, capacity: u64) -> bool
    requires le_width { 1 ≤ width }
    requires q_value { plan_number q ≡ 0 }
    requires counts { Counts width room q.count store.now }
    requires homed { Homed width (cuts_of q) (stored_records width room q.count store.now) }
    ensures { result ≡ overfull width room q capacity store.now }
{
    let n = q.count as usize;
    let cuts = cuts_of(q);
    // 64 places, of which n are used, since there is no heap.
    let mut counts = [0u64; PLACES];
    count_store(store, width, room, &cuts[..n], &mut counts[..n]);
    some_above(&counts[..n], capacity)
}
