// One store at a time, from the partitions (document 01: lanes) of one plan to those of another with the same number
// and capacities: whether its records fit there (checks 9 and 10), and their move, which then cannot fail. The three
// stores' numbers in their order. Nothing is written before all is counted. The work is in the crates `move_count` and
// `rehoming`, by a record's width; the call is in the crate join.
#![tactic(auto)]

ghost use Rattle.std.specs.Prelude.{false, ◌≡◌};
ghost use Rattle.refusal.specs.Refusal.{answer_number};
ghost use Rattle.checks.specs.Stores.{stores, store_number};
ghost use Rattle.repartitioning.specs.Moving.{tuples_overfull, rows_overfull, move_number, TuplesMoved, RowsMoved};
ghost use Rattle.repartitioning.specs.Moving.{Recut, TuplesStand, RowsStand};

use interval::tuple::{ROW_WIDTH, TUPLE_WIDTH};
use plan::Partitioning;
use refusal::Refusal;

// Whether a partition of q would get more of a tuple store's tuples than its capacity.
pub fn tuples_overfull(p: Partitioning, q: Partitioning, ws: &[u64]) -> bool
    requires recut { Recut p q }
    requires tuples_stand { TuplesStand p ws.now }
    ensures { result ≡ tuples_overfull p q ws.now }
{
    let room = store::tuple_room(p);
    move_count::overfull(ws, TUPLE_WIDTH, room, q, q.tuples)
}

// Whether a partition of q would get more of the rows store's rows than its capacity.
pub fn rows_overfull(p: Partitioning, q: Partitioning, ws: &[u64]) -> bool
    requires recut { Recut p q }
    requires rows_stand { RowsStand p ws.now }
    ensures { result ≡ rows_overfull p q ws.now }
{
    let room = store::row_room(p);
    move_count::overfull(ws, ROW_WIDTH, room, q, q.rows)
}

// Checks 9 and 10 of the three stores, past checks 1 to 5.
pub fn move_number(
    p: Partitioning,
    q: Partitioning,
    outer: &[u64],
    inner: &[u64],
    rows: &[u64],
) -> Result<(), Refusal>
    requires recut { Recut p q }
    requires rows_value { store_number p (stores outer.now inner.now rows.now) ≡ 0 }
    ensures { answer_number result ≡ move_number p q (stores outer.now inner.now rows.now) }
{
    if tuples_overfull(p, q, outer) {
        return Err(Refusal::Full);
    }
    if tuples_overfull(p, q, inner) {
        return Err(Refusal::Full);
    }
    if rows_overfull(p, q, rows) {
        return Err(Refusal::Crowded);
    }
    Ok(())
}

// Moves each tuple of a tuple store to the partition of q that it belongs to, where all fit.
pub fn move_tuples(p: Partitioning, q: Partitioning, ws: &mut [u64])
    requires recut { Recut p q }
    requires tuples_stand { TuplesStand p ws.old }
    requires ws_value { tuples_overfull p q ws.old ≡ false }
    ensures { TuplesMoved p q ws.old ws.new }
{
    let room = store::tuple_room(p);
    rehoming::rehome(ws, TUPLE_WIDTH, room, q);
}

// Moves each row of the rows store to the partition of q that it belongs to, where all fit.
pub fn move_rows(p: Partitioning, q: Partitioning, ws: &mut [u64])
    requires recut { Recut p q }
    requires rows_stand { RowsStand p ws.old }
    requires ws_value { rows_overfull p q ws.old ≡ false }
    ensures { RowsMoved p q ws.old ws.new }
{
    let room = store::row_room(p);
    rehoming::rehome(ws, ROW_WIDTH, room, q);
}
