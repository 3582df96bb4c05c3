// A call, with the lengths that are lent.
use crate::stores::Stores;
use crate::sweeps::Caches;
use crate::{digest, draws, plans, stores, sweeps, total, tuples};
use interval::time::Chronon;
use interval::tuple::Tuple;
use join::Answer;
use plan::{PLACES, Partitioning};
use rows::Side;

// How many words of each store are lent.
#[derive(Clone, Copy)]
pub(crate) struct Lengths {
    pub(crate) outer: u64,
    pub(crate) inner: u64,
    pub(crate) rows: u64,
}

// A call: its kind, and all that is handed over; `base` is the plan before it was disturbed. The kinds: 0 open, 1
// insert, 2 delete, 3 sweep, 4 repartition, 5 sweep aside, into a rows store of its own.
#[derive(Clone, Copy)]
pub(crate) struct Call {
    pub(crate) kind: u64,
    pub(crate) base: Partitioning,
    pub(crate) plan: Partitioning,
    pub(crate) lengths: Lengths,
    pub(crate) side: u64,
    pub(crate) tuple: Tuple,
    pub(crate) caches: Caches,
    pub(crate) cuts: [Chronon; PLACES],
}

// What a call left: its answer, the plan in force after it, the wall's stores, and a digest of the rest.
#[derive(Clone, Copy)]
pub(crate) struct Left {
    pub(crate) answer: Answer,
    pub(crate) plan: Partitioning,
    pub(crate) more: u64,
    pub(crate) stores: Stores,
}

pub(crate) fn lengths_of(p: Partitioning) -> Lengths {
    let tuples = total::times(p.count, stores::room(4, p.tuples));
    Lengths {
        outer: tuples,
        inner: tuples,
        rows: total::times(p.count, stores::room(5, p.rows)),
    }
}

// The opening of a wall.
pub(crate) fn opening(p: Partitioning) -> Call {
    let cuts = p.lasts;
    Call {
        kind: 0,
        base: p,
        plan: p,
        lengths: lengths_of(p),
        side: 0,
        tuple: tuples::none(),
        caches: sweeps::none(),
        cuts,
    }
}

fn side(k: u64) -> Side {
    if k < 1 { Side::Outer } else { Side::Inner }
}

// The kind of a call by a draw of 128, with the draw at which each kind ends.
fn kind_by(k: u64, open: u64, repartition: u64, sweep: u64, insert: u64) -> u64 {
    let change = total::either(k < insert, 1, 2);
    let later = total::either(k < repartition, 4, total::either(k < sweep, 3, change));
    total::either(k < open, 0, later)
}

// The kind of a call. In the first steps after an open, when a wall is often empty, many are repartitions; then for a
// while only disturbed ones, so that the order of the tuples can be told, and then many of a wall that holds some. An
// open that is not disturbed is rare, since it empties the wall.
fn kind_of(k: u64, disturbed: bool, age: u64) -> u64 {
    let settled = total::either(age < 30, kind_by(k, 1, 1, 9, 98), kind_by(k, 1, 33, 41, 96));
    let drawn = total::either(disturbed, kind_by(k, 24, 48, 64, 84), settled);
    total::either(k < total::either(age < 3, 40, 0), 4, drawn)
}

// The kind of a step's call. One sweep in four is one aside.
pub(crate) fn kind(d: &[u64], disturbed: bool, age: u64) -> u64 {
    let drawn = kind_of(draws::pick(d, 0, 128), disturbed, age);
    let sweep = total::either(draws::pick(d, 31, 4) < 1, 5, 3);
    total::either(drawn == 3, sweep, drawn)
}

// The plan of a step's call before it is disturbed: a sweep aside has few rows a lane.
pub(crate) fn base(p: Partitioning, kind: u64, d: &[u64]) -> Partitioning {
    plans::with_rows(
        p,
        total::either(kind == 5, draws::from(d, 32, 1, 2), p.rows),
    )
}

fn change(
    kind: u64,
    p: Partitioning,
    side: Side,
    t: Tuple,
    outer: &mut [u64],
    inner: &mut [u64],
    rows: &mut [u64],
) -> Answer {
    match kind {
        0 => join::open(p, outer, inner, rows),
        1 => join::insert(p, side, t, outer, inner, rows),
        _ => join::delete(p, side, t, outer, inner, rows),
    }
}

// The change on the first words of each store.
fn changed(c: Call, s: Stores) -> Left {
    let p = c.plan;
    let t = c.tuple;
    let l = c.lengths;
    let mut outer = s.outer;
    let mut inner = s.inner;
    let mut rows = s.rows;
    let answer = change(
        c.kind,
        p,
        side(c.side),
        t,
        total::lent_mut(&mut outer, l.outer),
        total::lent_mut(&mut inner, l.inner),
        total::lent_mut(&mut rows, l.rows),
    );
    Left {
        answer,
        plan: p,
        more: 0,
        stores: Stores { outer, inner, rows },
    }
}

// The repartition on the first words of each store.
fn with_cuts(c: Call, s: Stores) -> Left {
    let p = c.plan;
    let cuts = c.cuts;
    let l = c.lengths;
    let mut outer = s.outer;
    let mut inner = s.inner;
    let mut rows = s.rows;
    let new = join::repartition(
        p,
        cuts,
        total::lent_mut(&mut outer, l.outer),
        total::lent_mut(&mut inner, l.inner),
        total::lent_mut(&mut rows, l.rows),
    );
    let plan = new.plan;
    let answer = new.answer;
    Left {
        answer,
        plan,
        more: digest::plan(plan),
        stores: Stores { outer, inner, rows },
    }
}

pub(crate) fn made(c: Call, s: Stores) -> Left {
    let kind = c.kind;
    match kind {
        3 => sweeps::swept(c, s),
        4 => with_cuts(c, s),
        5 => sweeps::aside(c, s),
        _ => changed(c, s),
    }
}
