// A cursor over the rows store: the stored rows of the partitions from one on, one after the other, each read once, and
// of them those whose interval has a chronon in common with a window.
//
// The functions ask by their `requires` what a plan and a rows store that passed checks 1 to 5 give. Cost: each row of
// those partitions is read once from `first` to the last `next`. The definitions are in specs/Cursor.
#![tactic(auto)]

ghost use Rattle.std.specs.Prelude.{true, false, ◌≡◌, ◌≤◌, length};
ghost use Rattle.interval.specs.Tuple.{row_width};
ghost use Rattle.part.specs.Part.{room_of, counted};
ghost use Rattle.store.specs.Store.{partition_at};
ghost use Rattle.cursor.specs.Cursor.{touching, Scannable, scanned, Stands, Sought, Reached, Started, Advanced};

use interval::time::Interval;
use interval::tuple::Row;
use plan::PartitionIndex;

// What is read: a store of `count` partitions of `room` words each, from a partition up, and of its rows those that
// have a chronon in common with the window.
#[derive(Clone, Copy)]
pub struct Scan {
    pub room: usize,
    pub count: u64,
    pub from: PartitionIndex,
    pub window: Interval,
}

// A row that is handed out: its partition and its place there, counted from 0, and the row, as it was read.
#[derive(Clone, Copy)]
pub struct Cursor {
    pub partition: PartitionIndex,
    pub place: usize,
    pub row: Row,
}

// Whether a row has a chronon in common with the window.
fn touches(window: Interval, row: Row) -> bool
    ensures { result ≡ touching window row }
{
    if window.last.0 < row.valid.first.0 {
        return false;
    }
    window.first.0 <= row.valid.last.0
}

// The first row of partition i, from row k on, that touches the window. Each row is read once.
fn seek(part: &[u64], window: Interval, i: PartitionIndex, k: usize) -> Option<Cursor>
    requires part_in_bounds { room_of row_width (counted part.now) ≤ length part.now }
    requires k_bound { k ≤ counted part.now }
    ensures { Sought window part.now i.0 k result }
{
    let n = part::count(part) as usize;
    for place in k..n {
        let row = part::record_at::<Row>(part, place);
        if touches(window, row) {
            return Some(Cursor {
                partition: i,
                place,
                row,
            });
        }
    }
    None
}

// The first row, from row k of partition i on, that touches the window.
fn reach(rows: &[u64], scan: Scan, i: PartitionIndex, k: usize) -> Option<Cursor>
    requires scannable { Scannable scan rows.now }
    requires i_le_count { i.0 ≤ scan.count }
    requires k_bound { k ≤ counted (partition_at scan.room rows.now i.0) }
    ensures { Reached scan rows.now i.0 k result }
{
    let mut place = k;
    for j in i.0..scan.count {
        let part = store::partition(rows, scan.room, PartitionIndex(j));
        if let Some(at) = seek(part, scan.window, PartitionIndex(j), place) {
            return Some(at);
        }
        place = 0;
    }
    None
}

// The first row that a scan hands out.
pub fn first(rows: &[u64], scan: Scan) -> Option<Cursor>
    requires { Scannable scan rows.now }
    ensures { Started scan rows.now result }
{
    reach(rows, scan, scan.from, 0)
}

// The next row after the one at a cursor.
pub fn next(rows: &[u64], scan: Scan, at: Cursor) -> Option<Cursor>
    requires scannable { Scannable scan rows.now }
    requires stands { Stands scan rows.now at }
    ensures { Advanced scan rows.now at result }
{
    reach(rows, scan, at.partition, at.place + 1)
}

// How many rows a scan reads: those stored in its partitions.
pub fn stored(rows: &[u64], scan: Scan) -> u64
    requires { Scannable scan rows.now }
    ensures { result ≡ length (scanned scan rows.now) }
{
    rows::count::examined_from(rows, scan.room, scan.from, scan.count)
}
