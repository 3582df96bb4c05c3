// Partitionings (document 01: plans), by value: their own checks 1 to 3 and 18, the partition of a chronon, a plan with
// new cuts. Cost: at most a comparison for each place of a plan.
#![tactic(auto)]

ghost use Rattle.std.specs.Prelude.{◌≡◌, take};
ghost use Rattle.refusal.specs.Refusal.{answer_number};
ghost use Rattle.plan.specs.Plan.{numbers, cover, minimum_check, plan_number, home, with_cuts};

use interval::time::{CALENDAR_END, Chronon};
use refusal::Refusal;

// The most lanes of a legal plan.
pub const MOST_PARTITIONS: u64 = 64;

// The most tuples of one of its lanes.
pub const MOST_TUPLES: u64 = 512;

// The most rows of one of its lanes.
pub const MOST_ROWS: u64 = 4_096;

// The largest minimum of a legal plan, in minutes.
pub const MOST_MINIMUM: u64 = 1_440;

// The places that a plan has for last minutes.
pub const PLACES: usize = MOST_PARTITIONS as usize;

// A lane number of document 01, counted from 0. It is no Chronon: one handed over where the other belongs does not
// compile.
#[derive(Clone, Copy)]
pub struct PartitionIndex(pub u64);

// A plan of document 01: the lane count, the last minute of each lane, the tuple capacity and the row capacity of a
// lane, and the fewest minutes that a row may last. Places and a count, since document 01's plan is 64 places by value.
#[derive(Clone, Copy)]
pub struct Partitioning {
    pub count: u64,
    pub lasts: [Chronon; PLACES],
    pub tuples: u64,
    pub rows: u64,
    pub minimum: u64,
}

// The first `count` of the last chronons rise strictly and end at the calendar's end.
pub fn covers(count: u64, lasts: [Chronon; PLACES]) -> bool
    ensures { result ≡ cover (take count (numbers lasts)) }
{
    if count < 1 {
        return false;
    }
    let used = MOST_PARTITIONS.min(count) as usize;
    for i in 0..used - 1 {
        let last = lasts[i];
        let next = lasts[i + 1];
        if next.0 <= last.0 {
            return false;
        }
    }
    let end = lasts[used - 1];
    end.0 == CALENDAR_END
}

// Check 18 of a minimum, a plan's or a line's.
pub fn minimum_check(minimum: u64) -> Result<(), Refusal>
    ensures { answer_number result ≡ minimum_check minimum }
{
    if minimum < 1 {
        return Err(Refusal::Minimum);
    }
    if MOST_MINIMUM < minimum {
        return Err(Refusal::Minimum);
    }
    Ok(())
}

// Checks 1 to 3 and 18 of a plan, in that order: the first that applies refuses it.
pub fn plan_number(p: Partitioning) -> Result<(), Refusal>
    ensures { answer_number result ≡ plan_number p }
{
    if p.count < 1 {
        return Err(Refusal::PartitionCount);
    }
    if MOST_PARTITIONS < p.count {
        return Err(Refusal::PartitionCount);
    }
    let lasts = p.lasts;
    if !covers(p.count, lasts) {
        return Err(Refusal::Cuts);
    }
    if p.tuples < 1 {
        return Err(Refusal::Capacity);
    }
    if MOST_TUPLES < p.tuples {
        return Err(Refusal::Capacity);
    }
    if p.rows < 1 {
        return Err(Refusal::Capacity);
    }
    if MOST_ROWS < p.rows {
        return Err(Refusal::Capacity);
    }
    minimum_check(p.minimum)
}

// The partition that contains a chronon; the number of partitions where none does, as the definition `home` has it.
pub fn home(p: Partitioning, m: Chronon) -> PartitionIndex
    ensures { result.0 ≡ home p m.0 }
{
    let used = MOST_PARTITIONS.min(p.count) as usize;
    let found = p.lasts[..used].iter().position(|last| m.0 <= last.0);
    PartitionIndex(found.unwrap_or(used) as u64)
}

// The plan with new last chronons in its first `count` places, and all else as it was.
#[tactic(auto, unfolding(crate::specs::Plan::with_cuts))]
pub fn with_cuts(p: Partitioning, new: [Chronon; PLACES]) -> Partitioning
    ensures { result ≡ with_cuts p new }
{
    let mut lasts = p.lasts;
    let places = MOST_PARTITIONS.min(p.count) as usize;
    lasts[..places].copy_from_slice(&new[..places]);
    Partitioning { lasts, ..p }
}
