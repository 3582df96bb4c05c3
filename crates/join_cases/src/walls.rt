// A list of calls on one wall; before each, it is asked what a sweep will take.
use crate::calls::{Call, Left, Lengths};
use crate::digest::Order;
use crate::stores::Stores;
use crate::tuples::Pool;
use crate::{
    calls, digest, draws, foreseen, meddling, minima, plans, stores, sweeps, total, tuples,
};
use interval::tuple::Tuple;
use plan::Partitioning;

// How often each number from 0 to 18 was answered.
#[derive(Clone, Copy)]
pub(crate) struct Tally {
    pub(crate) times: [u64; 19],
}

pub(crate) fn none() -> Tally {
    let times = [0u64; 19];
    Tally { times }
}

// What goes from step to step: the stores, the plan in force, the state of the draws, the digest, how many calls were
// accepted, how many steps ago the wall was opened, whether the order of its tuples can be told, and how often each
// number was answered.
#[derive(Clone, Copy)]
pub(crate) struct Wall {
    pub(crate) stores: Stores,
    pub(crate) plan: Partitioning,
    pub(crate) state: u64,
    pub(crate) digest: u64,
    pub(crate) accepted: u64,
    pub(crate) age: u64,
    pub(crate) ordered: bool,
    pub(crate) tally: Tally,
}

// One word more or less, for two of the kinds.
fn bent(length: u64, kind: u64, shorter: u64, longer: u64) -> u64 {
    let more = total::either(kind == longer, total::plus(length, 1), length);
    total::either(kind == shorter, total::less(length), more)
}

// The lengths disturbed. A kind from 6 on leaves them as they are.
fn bent_lengths(l: Lengths, kind: u64) -> Lengths {
    Lengths {
        outer: bent(l.outer, kind, 0, 1),
        inner: bent(l.inner, kind, 2, 3),
        rows: bent(l.rows, kind, 4, 5),
    }
}

// Whether a step is disturbed: an illegal plan, another minimum, a wrong length, or a word meddled with.
fn is_disturbed(d: &[u64]) -> bool {
    let plan = plans::is_disturbed(d) | minima::is_other(d);
    let length = draws::pick(d, 22, 180) < 6;
    plan | length | meddling::is_met(d)
}

// The call of a step, whose tuple is drawn.
fn drawn_call(p: Partitioning, kind: u64, d: &[u64], tuple: Tuple, s: Stores) -> Call {
    let base = calls::base(p, kind, d);
    let valid = tuple.valid;
    let last = valid.last;
    let cuts = plans::new_cuts(p, d, last.0);
    Call {
        kind,
        base,
        plan: minima::of_step(p, plans::of_step(base, d), d, s),
        lengths: bent_lengths(calls::lengths_of(base), draws::pick(d, 22, 180)),
        side: draws::pick(d, 1, 2),
        tuple,
        caches: sweeps::drawn(d),
        cuts,
    }
}

fn drawn_step(p: Partitioning, kind: u64, d: &[u64], pool: Pool, s: Stores) -> Call {
    let own = stores::side(s, draws::pick(d, 1, 2));
    let tuple = tuples::of_step(p, kind, d, pool, &own);
    drawn_call(p, kind, d, tuple, s)
}

// Which order is free in what a call left: that of the tuples after an accepted repartition, that of the rows after an
// accepted sweep too. After a repartition of a wall that holds tuples their order cannot be told until it is opened.
fn order(p: Partitioning, ordered: bool, kind: u64, number: u64, before: Stores) -> Order {
    let accepted = number == 0;
    let recut = (kind == 4) & accepted;
    let opened = (kind == 0) & accepted;
    let swept = (kind == 3) & accepted;
    let holds = stores::holds(before, p.count, stores::room(4, p.tuples));
    let lost = recut & holds;
    Order {
        free_tuples: recut,
        free_rows: recut | swept,
        told: opened | (ordered & !lost),
    }
}

// Takes in a call's answer and what it left; the stores were as they are handed over.
fn seen(h: u64, p: Partitioning, order: Order, left: Left, before: Stores) -> u64 {
    let a = left.answer;
    let s = left.stores;
    let counts = match a {
        Ok(counted) => [counted.changed, counted.examined],
        Err(_) => [0, 0],
    };
    let number = digest::mix(h, refusal::answer_number(a));
    let counted = digest::run(number, &counts, 0, 2);
    digest::all(digest::mix(counted, left.more), p, order, before, s)
}

fn counted(tally: Tally, number: u64) -> Tally {
    let mut times = tally.times;
    let n = total::word(&times, number);
    total::put(&mut times, number, total::plus(n, 1));
    Tally { times }
}

// How many steps ago the wall was opened, after a call that was not disturbed.
fn aged(age: u64, kind: u64, number: u64) -> u64 {
    let opened = total::either(number == 0, 0, total::plus(age, 1));
    total::either(kind == 0, opened, total::plus(age, 1))
}

// The wall after a step. After a disturbed call every word is what it was before.
fn after(
    wall: Wall,
    state: u64,
    disturbed: bool,
    kind: u64,
    left: Left,
    order: Order,
    digest: u64,
) -> Wall {
    let p = wall.plan;
    let recut = left.plan;
    let before = wall.stores;
    let s = left.stores;
    let tally = wall.tally;
    let number = refusal::answer_number(left.answer);
    let age = wall.age;
    Wall {
        stores: stores::either(disturbed, before, s),
        plan: plans::either(disturbed, p, plans::either(kind == 4, recut, p)),
        state,
        digest,
        accepted: total::plus(wall.accepted, total::either(number == 0, 1, 0)),
        age: total::either(disturbed, total::plus(age, 1), aged(age, kind, number)),
        ordered: (disturbed & wall.ordered) | (!disturbed & order.told),
        tally: counted(tally, number),
    }
}

// The wall, still before a step's call, after it was told what a sweep will take; the stores are as handed over.
fn asked(wall: Wall, call: Call, before: Stores, d: &[u64]) -> Wall {
    let told = foreseen::told(wall.digest, call, before, d);
    let stores = wall.stores;
    let plan = wall.plan;
    let tally = wall.tally;
    Wall {
        stores,
        plan,
        state: wall.state,
        digest: told.digest,
        accepted: total::plus(wall.accepted, total::either(told.number == 0, 1, 0)),
        age: wall.age,
        ordered: wall.ordered,
        tally: counted(tally, told.number),
    }
}

// One step by its draws.
fn taken(wall: Wall, state: u64, d: &[u64], pool: Pool) -> Wall {
    let p = wall.plan;
    let s = wall.stores;
    let disturbed = is_disturbed(d);
    let kind = calls::kind(d, disturbed, wall.age);
    let call = drawn_step(p, kind, d, pool, s);
    let before = meddling::of_step(p, d, s);
    let told = asked(wall, call, before, d);
    let left = calls::made(call, before);
    let number = refusal::answer_number(left.answer);
    let order = order(p, wall.ordered, kind, number, before);
    let digest = seen(told.digest, p, order, left, before);
    after(told, state, disturbed, kind, left, order, digest)
}

// Draws the numbers of a step, and takes it.
fn step(wall: Wall, pool: Pool) -> Wall {
    let mut d = [0u64; 37];
    let state = draws::fill(wall.state, &mut d);
    taken(wall, state, &d, pool)
}

fn steps(start: Wall, pool: Pool) -> Wall {
    let mut wall = start;
    for _ in 0..80u64 {
        wall = step(wall, pool);
    }
    wall
}

// A wall on words that were filled with drawn numbers: it is opened.
fn opened(seed: u64, plan: Partitioning, state: u64, tally: Tally) -> Wall {
    let drawn = stores::filled_with(state);
    let words = drawn.stores;
    let left = calls::made(calls::opening(plan), words);
    let s = left.stores;
    Wall {
        stores: s,
        plan,
        state: drawn.state,
        digest: digest::mix(seed, refusal::answer_number(left.answer)),
        accepted: 0,
        age: 0,
        ordered: true,
        tally,
    }
}

// The list of a seed: a plan and a pool are drawn, a wall is opened, and 80 steps follow.
pub(crate) fn run(seed: u64, tally: Tally) -> Wall {
    let mut d = [0u64; 8];
    let sown = draws::fill(seed, &mut d);
    let plan = plans::drawn(seed, &d, sown);
    let mut numbers = [0u64; 56];
    let pooled = draws::fill(total::plus(sown, 77), &mut numbers);
    let wall = opened(seed, plan, pooled, tally);
    steps(wall, Pool { plan, numbers })
}
