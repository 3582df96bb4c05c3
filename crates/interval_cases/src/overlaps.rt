// Overlaps: all pairs of spans over the minutes 0 to 12, reversed spans too, against a walk over the minutes.
use crate::report;
use interval::time::{Chronon, Interval};
use std::io;

// What a walk has seen: how many minutes lie in both spans, the first of them and the last.
#[derive(Clone, Copy)]
struct Seen {
    found: u64,
    first: u64,
    last: u64,
}

#[derive(Clone, Copy)]
struct Counts {
    cases: u64,
    wrong: u64,
    common: u64,
}

fn lies_in(minute: u64, span: Interval) -> bool {
    (span.first.0 <= minute) & (minute <= span.last.0)
}

// The walk one minute on.
fn step(w: Seen, a: Interval, b: Interval, minute: u64) -> Seen {
    let both = lies_in(minute, a) & lies_in(minute, b);
    Seen {
        found: report::more_unless(!both, w.found),
        first: report::either(both & (w.found == 0), minute, w.first),
        last: report::either(both, minute, w.last),
    }
}

fn walk(a: Interval, b: Interval) -> Seen {
    let mut w = Seen {
        found: 0,
        first: 0,
        last: 0,
    };
    for minute in 0..13 {
        w = step(w, a, b, minute);
    }
    w
}

// The walk saw the span's first minute first, its last minute last, and as many as lie between.
fn saw(w: Seen, span: Interval) -> bool {
    if w.found == 0 {
        return false;
    }
    if (w.first != span.first.0) | (w.last != span.last.0) {
        return false;
    }
    if w.last < w.first {
        return false;
    }
    w.last - w.first == w.found - 1
}

// The answer is what the walk saw.
fn agrees(w: Seen, answer: Option<Interval>) -> bool {
    match answer {
        Some(span) => saw(w, span),
        None => w.found == 0,
    }
}

fn count(n: Counts, w: Seen, answer: Option<Interval>) -> Counts {
    Counts {
        cases: report::more(n.cases),
        wrong: report::more_unless(agrees(w, answer), n.wrong),
        common: report::more_unless(answer.is_none(), n.common),
    }
}

// The pair of spans with this number: four digits to the base 13.
fn pair(n: Counts, k: u64) -> Counts {
    let a = Interval {
        first: Chronon(k / 2197 % 13),
        last: Chronon(k / 169 % 13),
    };
    let b = Interval {
        first: Chronon(k / 13 % 13),
        last: Chronon(k % 13),
    };
    count(n, walk(a, b), interval::time::intersect(a, b))
}

fn all_pairs() -> Counts {
    let mut n = Counts {
        cases: 0,
        wrong: 0,
        common: 0,
    };
    for k in 0..28_561 {
        n = pair(n, k);
    }
    n
}

// The line overlap: pairs, pairs that differ, pairs with an overlap.
pub(crate) fn run(rt: &impl Print) -> io::Result<()> {
    let n = all_pairs();
    report::name(rt, "overlap")?;
    report::number(rt, n.cases)?;
    report::number(rt, n.wrong)?;
    report::number(rt, n.common)?;
    report::end(rt)
}
