// The words of a wall: two tuple stores and the rows store, of which a call is lent the first words.
use crate::{draws, total};

pub(crate) const TUPLE_WORDS: usize = 322;

pub(crate) const ROW_WORDS: usize = 706;

#[derive(Clone, Copy)]
pub(crate) struct Stores {
    pub(crate) outer: [u64; TUPLE_WORDS],
    pub(crate) inner: [u64; TUPLE_WORDS],
    pub(crate) rows: [u64; ROW_WORDS],
}

// Stores, and the state of the draws after them.
#[derive(Clone, Copy)]
pub(crate) struct Filled {
    pub(crate) stores: Stores,
    pub(crate) state: u64,
}

// Words filled with drawn numbers.
pub(crate) fn filled_with(state: u64) -> Filled {
    let mut outer = [0u64; TUPLE_WORDS];
    let mut inner = [0u64; TUPLE_WORDS];
    let mut rows = [0u64; ROW_WORDS];
    let first = draws::fill(state, &mut outer);
    let second = draws::fill(first, &mut inner);
    let third = draws::fill(second, &mut rows);
    Filled {
        stores: Stores { outer, inner, rows },
        state: third,
    }
}

// The tuple store of a side: 0 the outer, 1 the inner.
pub(crate) fn side(s: Stores, k: u64) -> [u64; TUPLE_WORDS] {
    let outer = s.outer;
    let inner = s.inner;
    if k < 1 { outer } else { inner }
}

pub(crate) fn with_side(s: Stores, k: u64, words: [u64; TUPLE_WORDS]) -> Stores {
    let outer = s.outer;
    let inner = s.inner;
    let rows = s.rows;
    if k < 1 {
        return Stores {
            outer: words,
            inner,
            rows,
        };
    }
    Stores {
        outer,
        inner: words,
        rows,
    }
}

// The one stores or the other.
pub(crate) fn either(first: bool, s: Stores, t: Stores) -> Stores {
    if first { s } else { t }
}

pub(crate) fn with_rows(s: Stores, rows: [u64; ROW_WORDS]) -> Stores {
    let outer = s.outer;
    let inner = s.inner;
    Stores { outer, inner, rows }
}

// Whether a tuple is stored, in so many lanes of so many words each.
pub(crate) fn holds(s: Stores, count: u64, room: u64) -> bool {
    let outer = s.outer;
    let inner = s.inner;
    let drawings = total::word(&outer, held(&outer, count, 0, room));
    let spots = total::word(&inner, held(&inner, count, 0, room));
    (0 < drawings) | (0 < spots)
}

// The words of a lane of records, with its count.
pub(crate) fn room(width: u64, capacity: u64) -> u64 {
    total::plus(1, total::times(width, capacity))
}

// Where the first lane begins that holds a record, from this lane on and round; where this lane begins if none does.
pub(crate) fn held(words: &[u64], count: u64, lane: u64, room: u64) -> u64 {
    let mut place = total::times(lane, room);
    for i in (0..count).rev() {
        let base = total::times(total::rest(total::plus(lane, i), count), room);
        place = total::either(0 < total::word(words, base), base, place);
    }
    place
}
