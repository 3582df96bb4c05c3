// Check 5: whether a store is sound, once for tuples and rows. What a sound store is stands in crate store,
// specs/Store.antt.
// Each word is read once: two comparisons say that a record belongs to its partition, and eight words of a tail are
// tested for 0 at a time.
#![tactic(auto)]

ghost use Rattle.std.specs.Prelude.{true, ◌≡◌, ◌+◌, ◌≤◌, eqb, length, drop};
ghost use Rattle.lists.specs.Members.{all};
ghost use Rattle.lists.specs.Words.{part_at, zeros, records_of, record_at};
ghost use Rattle.plan.specs.Plan.{plan_number};
ghost use Rattle.part.specs.Part.{room_of, sound_part};
ghost use Rattle.store.specs.Store.{fits_tuples, fits_rows, sound_tuples, sound_rows};
ghost use Rattle.soundness.specs.Between.{width_of, legal_between, record_between, PartsFit, sound_parts};

use interval::time::Chronon;
use interval::tuple::{ROW_WIDTH, Row, TUPLE_WIDTH, Tuple};
use plan::Partitioning;

// What the records of a store are: said where the plan is known, so that what a plan asks of a record can go with it,
// the minutes of a row.
#[derive(Clone, Copy)]
enum Records {
    Tuples,
    Rows(u64),
}

// The bits that any of the eight words from place i has: 0 exactly if all eight are 0.
fn any_of_eight(words: &[u64], i: usize) -> u64
    requires { i + 8 ≤ length words.now }
    ensures { eqb result 0 ≡ zeros (part_at i 8 words.now) }
{
    let low = words[i] | words[i + 1] | words[i + 2] | words[i + 3];
    let high = words[i + 4] | words[i + 5] | words[i + 6] | words[i + 7];
    low | high
}

// Whether all words from place `from` on are 0, one word after the other.
fn zeros_one_by_one(words: &[u64], from: usize) -> bool
    ensures { result ≡ zeros (drop from words.now) }
{
    for i in from..words.len() {
        if words[i] != 0 {
            return false;
        }
    }
    true
}

// Whether all words from place `from` on are 0: eight at a time while there are eight.
fn zeros_from(words: &[u64], from: usize) -> bool
    ensures { result ≡ zeros (drop from words.now) }
{
    let len = words.len();
    if len < 8 {
        return zeros_one_by_one(words, from);
    }
    let mut i = from;
    // In steps of eight: over a store of the largest plan `iter().all` took 3.7 times as long.
    while i <= len - 8 {
        if any_of_eight(words, i) != 0 {
            return false;
        }
        i += 8;
    }
    zeros_one_by_one(words, i)
}

// The words of a record.
fn width(kind: Records) -> usize
    ensures { result ≡ width_of kind }
{
    match kind {
        Records::Tuples => TUPLE_WIDTH,
        Records::Rows(_) => ROW_WIDTH,
    }
}

// Whether a record is legal, as told, and its last chronon m is from `first` to `last`.
fn legal_between(legal: bool, m: Chronon, first: Chronon, last: Chronon) -> bool
    ensures { result ≡ legal_between legal m.0 first.0 last.0 }
{
    if !legal {
        return false;
    }
    if m.0 < first.0 {
        return false;
    }
    m.0 <= last.0
}

// Whether record k of a partition is legal and its last chronon is from `first` to `last`.
fn record_between(kind: Records, part: &[u64], k: usize, first: Chronon, last: Chronon) -> bool
    requires { room_of (width_of kind) (k + 1) ≤ length part.now }
    ensures { result ≡ record_between kind first.0 last.0
        (record_at (width_of kind) k (drop 1 part.now)) }
{
    match kind {
        Records::Tuples => {
            let t = part::record_at::<Tuple>(part, k);
            let legal = interval::tuple::tuple_number(t).is_ok();
            legal_between(legal, t.valid.last, first, last)
        }
        Records::Rows(minimum) => {
            let row = part::record_at::<Row>(part, k);
            let legal = interval::tuple::legal_row(minimum, row);
            legal_between(legal, row.valid.last, first, last)
        }
    }
}

// Whether each of the first n records of a partition is legal and between.
fn records_between(kind: Records, part: &[u64], n: usize, first: Chronon, last: Chronon) -> bool
    requires { room_of (width_of kind) n ≤ length part.now }
    ensures { result ≡ all (record_between kind first.0 last.0)
        (records_of (width_of kind) n (drop 1 part.now)) }
{
    for k in 0..n {
        if !record_between(kind, part, k, first, last) {
            return false;
        }
    }
    true
}

// Whether a partition is sound, given its capacity and its first and last chronon.
fn sound_part(kind: Records, part: &[u64], capacity: usize, first: Chronon, last: Chronon) -> bool
    requires { room_of (width_of kind) capacity ≤ length part.now }
    ensures { result ≡ sound_part (width_of kind) capacity (record_between kind first.0 last.0)
        part.now }
{
    let n = part[0] as usize;
    if capacity < n {
        return false;
    }
    if !records_between(kind, part, n, first, last) {
        return false;
    }
    zeros_from(part, 1 + width(kind) * n)
}

// Whether each partition of a store is sound, given their capacity and the words of each.
fn sound_parts(kind: Records, p: Partitioning, capacity: usize, room: usize, store: &[u64]) -> bool
    requires p_value { plan_number p ≡ 0 }
    requires parts_fit { PartsFit kind p capacity room store.now }
    ensures { result ≡ sound_parts kind p capacity room store.now }
{
    let lasts = p.lasts;
    let mut first = Chronon(0);
    let mut at: usize = 0;
    for i in 0..p.count as usize {
        let last = lasts[i];
        let end = at + room;
        if !sound_part(kind, &store[at..end], capacity, first, last) {
            return false;
        }
        first = Chronon(last.0 + 1);
        at = end;
    }
    true
}

// Check 5 of a tuple store of a legal plan's length: whether it is sound.
pub fn sound_tuples(p: Partitioning, store: &[u64]) -> bool
    requires { fits_tuples p (length store.now) ≡ true }
    ensures { result ≡ sound_tuples p store.now }
{
    sound_parts(
        Records::Tuples,
        p,
        p.tuples as usize,
        store::tuple_room(p),
        store,
    )
}

// Check 5 of the rows store.
pub fn sound_rows(p: Partitioning, store: &[u64]) -> bool
    requires { fits_rows p (length store.now) ≡ true }
    ensures { result ≡ sound_rows p store.now }
{
    sound_parts(
        Records::Rows(p.minimum),
        p,
        p.rows as usize,
        store::row_room(p),
        store,
    )
}
