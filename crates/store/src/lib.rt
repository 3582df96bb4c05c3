// Stores: their lengths (check 4), and their partitions, each handed on as its own part.
// What a sound store is stands here too, in specs/Store.antt; crate soundness tests it.
#![tactic(auto)]

ghost use Rattle.std.specs.Prelude.{◌≡◌, ◌+◌, ◌*◌, ◌≤◌, ◌<◌, length};
ghost use Rattle.plan.specs.Plan.{plan_number};
ghost use Rattle.part.specs.Part.{room_of, counted, appended, removed};
ghost use Rattle.store.specs.Store.{tuple_room, row_room, fits_tuples, fits_rows, partition_at, on_partition};

use encoding::Record;
use interval::tuple::{ROW_WIDTH, TUPLE_WIDTH};
use plan::{PartitionIndex, Partitioning};

// The words of one partition of a tuple store.
pub fn tuple_room(p: Partitioning) -> usize
    requires { plan_number p ≡ 0 }
    ensures { result ≡ tuple_room p }
{
    1 + TUPLE_WIDTH * (p.tuples as usize)
}

// The words of one partition of the rows store.
pub fn row_room(p: Partitioning) -> usize
    requires { plan_number p ≡ 0 }
    ensures { result ≡ row_room p }
{
    1 + ROW_WIDTH * (p.rows as usize)
}

// Whether a tuple store's length is what a legal plan gives.
pub fn fits_tuples(p: Partitioning, len: usize) -> bool
    requires { plan_number p ≡ 0 }
    ensures { result ≡ fits_tuples p len }
{
    len == p.count as usize * tuple_room(p)
}

// Whether the rows store's length is what a legal plan gives.
pub fn fits_rows(p: Partitioning, len: usize) -> bool
    requires { plan_number p ≡ 0 }
    ensures { result ≡ fits_rows p len }
{
    len == p.count as usize * row_room(p)
}

// Partition i of a store of partitions of `room` words, to be read.
pub fn partition(store: &[u64], room: usize, i: PartitionIndex) -> &[u64]
    requires { i.0 * room + room ≤ length store.now }
    ensures { result.now ≡ partition_at room store.now i.0 }
{
    let at = i.0 as usize * room;
    let end = at + room;
    &store[at..end]
}

// Appends a record to partition i; every other word stays.
pub fn append<R: Record>(store: &mut [u64], room: usize, i: PartitionIndex, added: R)
    requires room_in_bounds { i.0 * room + room ≤ length store.old }
    requires i_bound { room_of R.WIDTH (counted (partition_at room store.old i.0) + 1) ≤ room }
    ensures { store.new ≡ on_partition room i.0 (appended R.WIDTH (R.to_words added)) store.old }
{
    let at = i.0 as usize * room;
    let end = at + room;
    records::append(&mut store[at..end], added);
}

// Takes record k, of that width, out of partition i; every other word stays.
pub fn remove(store: &mut [u64], width: usize, room: usize, i: PartitionIndex, k: usize)
    requires room_in_bounds { i.0 * room + room ≤ length store.old }
    requires k_bound { k < counted (partition_at room store.old i.0) }
    requires i_bound { room_of width (counted (partition_at room store.old i.0)) ≤ room }
    ensures { store.new ≡ on_partition room i.0 (removed width k) store.old }
{
    let at = i.0 as usize * room;
    let end = at + room;
    records::remove(&mut store[at..end], width, k);
}
