// Minutes without a spot (document 02, (h)): for each stored drawing, in store order, the longest stretches of its
// interval that no row it makes covers, as records of a tuple's words in a lent buffer.
//
// Nothing has to be checked before calling, and a refusal changes no word. The rows store is not looked at: the rows
// are those of the join, by the plan's minimum. No memory but the lent buffer: the minutes of a drawing are gone
// through from the left, with one scan of the spots for each covered stretch. All drawings are gone through twice,
// first with no buffer, which counts the records for check 19, then with the lent one, which writes them.
// The definitions are in specs/: Listed (the call), Joined (what it says of the join), Placing (the steps).
#![tactic(auto)]

ghost use Rattle.std.specs.Prelude.{true, [], ◌∷◌, ◌≡◌, ◌+◌, ◌*◌, ◌≤◌, length};
ghost use Rattle.refusal.specs.Refusal.{answer_number};
ghost use Rattle.std.specs.Int.{w64};
ghost use Rattle.std.proofs.Common.{Fits};
ghost use Rattle.lists.specs.Members.{all, gather};
ghost use Rattle.interval.specs.Tuple.{tuple_width, legal_tuple};
ghost use Rattle.plan.specs.Plan.{plan_number};
ghost use Rattle.part.specs.Part.{room_of, counted, tuples_in};
ghost use Rattle.store.specs.Store.{tuple_room, sound_tuples};
ghost use Rattle.store.specs.Sides.{Sides};
ghost use Rattle.gaps.specs.Listed.{gaps_by, gaps, words_for, room_check, GapsListed};
ghost use Rattle.gaps.specs.Placing.{Placed};

use checks::{Answer, Counted};
use encoding::Record;
use interval::time::{Chronon, Interval};
use interval::tuple::{TUPLE_WIDTH, Tuple};
use plan::{PartitionIndex, Partitioning};
use refusal::Refusal;

// Writes a record after k others, where the buffer has room for it; gives how many there are then.
fn put(out: &mut [u64], k: usize, t: Tuple) -> usize
    requires { Fits w64 (words_for (k + 1)) }
    ensures { Placed out.old k (t ∷ []) out.new result }
{
    let at = TUPLE_WIDTH * k;
    let end = at + TUPLE_WIDTH;
    if end <= out.len() {
        t.write(out, at);
    }
    k + 1
}

// Writes the gaps of a drawing after k records, as far as they fit; gives how many records there are then.
fn list_tuple(p: Partitioning, d: Tuple, inner: &[u64], out: &mut [u64], k: usize) -> usize
    requires p_value { plan_number p ≡ 0 }
    requires inner_len { length inner.now ≡ p.count * tuple_room p }
    requires inner_value { sound_tuples p inner.now ≡ true }
    requires d_value { legal_tuple d ≡ true }
    requires fits { Fits w64 (words_for (k + length (gaps_by p inner.now d))) }
    ensures { Placed out.old k (gaps_by p inner.now d) out.new result }
{
    let end = d.valid.last.0;
    let mut records = k;
    let mut m = d.valid.first.0;
    // The minute jumps behind a covered stretch: no counter bounds it.
    while m <= end {
        let next = coverage::next_covered(p, d, inner, Chronon(m));
        if m < next.first.0 {
            let gap = Interval {
                first: Chronon(m),
                last: Chronon(next.first.0 - 1),
            };
            records = put(out, records, interval::tuple::during(d, gap));
        }
        m = next.last.0 + 1;
    }
    records
}

// The same for the drawings of a partition, in their order.
fn list_partition(p: Partitioning, part: &[u64], inner: &[u64], out: &mut [u64], k: usize) -> usize
    requires p_value { plan_number p ≡ 0 }
    requires inner_len { length inner.now ≡ p.count * tuple_room p }
    requires inner_value { sound_tuples p inner.now ≡ true }
    requires part_in_bounds { room_of tuple_width (counted part.now) ≤ length part.now }
    requires part_value { all legal_tuple (tuples_in part.now) ≡ true }
    requires fits { Fits w64 (words_for (k + length (gather (gaps_by p inner.now) (tuples_in part.now)))) }
    ensures { Placed out.old k
        (gather (gaps_by p inner.now) (tuples_in part.now)) out.new result }
{
    let n = part::count(part) as usize;
    let mut records = k;
    for i in 0..n {
        let d = part::record_at(part, i);
        records = list_tuple(p, d, inner, out, records);
    }
    records
}

// The same for all drawings, in store order, from the buffer's start.
fn list_store(p: Partitioning, outer: &[u64], inner: &[u64], out: &mut [u64]) -> usize
    requires { Sides p outer.now inner.now }
    ensures { Placed out.old 0 (gaps p outer.now inner.now)
        out.new result }
{
    let room = store::tuple_room(p);
    let mut records: usize = 0;
    for i in 0..p.count {
        let part = store::partition(outer, room, PartitionIndex(i));
        records = list_partition(p, part, inner, out, records);
    }
    records
}

// Check 19 of a buffer of `room` words for so many records: they do not fit.
fn room_check(room: usize, records: usize) -> Result<(), Refusal>
    requires { Fits w64 (words_for records) }
    ensures { answer_number result ≡ room_check room records }
{
    if room < TUPLE_WIDTH * records {
        return Err(Refusal::ShortBuffer);
    }
    Ok(())
}

// Lists the gaps of the stored drawings: the call.
pub fn list(p: Partitioning, outer: &[u64], inner: &[u64], out: &mut [u64]) -> Answer
    ensures { GapsListed p outer.now inner.now
        out.old out.new result }
{
    checks::sides_number(p, outer, inner)?;
    let records = list_store(p, outer, inner, &mut out[0..0]);
    room_check(out.len(), records)?;
    list_store(p, outer, inner, out);
    Ok(Counted {
        changed: records as u64,
        examined: 0,
    })
}
