// How long a span lasts, and legal rows: words at the ends of each range, in all combinations, each span with minima at
// the ends of their range and out of it, and about the span's own length, against rules written for the test.
use crate::report;
use interval::time::{Chronon, Interval};
use interval::tuple::Row;
use std::io;

const HUGE: u64 = 18_446_744_073_709_551_615;

// How many minima a span is tried with.
const MINIMA: usize = 13;

// How many cases there are, how many differ, and how many the crate affirms of each minimum.
#[derive(Clone, Copy)]
struct Counts {
    cases: u64,
    wrong: u64,
    affirmed: [u64; MINIMA],
}

fn none() -> Counts {
    let affirmed = [0u64; MINIMA];
    Counts {
        cases: 0,
        wrong: 0,
        affirmed,
    }
}

// The word at a place; 0 past the end.
fn word(words: &[u64], at: u64) -> u64 {
    let i = at as usize;
    if i < words.len() { words[i] } else { 0 }
}

// The number after another; the largest has none.
fn next(n: u64) -> u64 {
    if n < HUGE { n + 1 } else { n }
}

fn minute(k: u64) -> u64 {
    let words = [
        0,
        1,
        2,
        1_438,
        1_439,
        1_440,
        99_999_998,
        99_999_999,
        100_000_000,
        9_223_372_036_854_775_807,
        9_223_372_036_854_775_808,
        18_446_744_073_709_551_614,
        HUGE,
    ];
    word(&words, k)
}

// How far the last minute lies after the first; 0 if it does not.
fn gap(v: Interval) -> u64 {
    if v.last.0 < v.first.0 {
        0
    } else {
        v.last.0 - v.first.0
    }
}

// The minimum with this number: one of ten, or one less than the span's length, as much, or one more.
fn minimum(v: Interval, k: u64) -> u64 {
    let less = gap(v);
    let words = [
        0,
        1,
        2,
        1_439,
        1_440,
        1_441,
        9_223_372_036_854_775_807,
        9_223_372_036_854_775_808,
        18_446_744_073_709_551_614,
        HUGE,
        less,
        next(less),
        next(next(less)),
    ];
    word(&words, k)
}

// The rule: so many minutes are at most one more than the gap.
fn rule(minimum: u64, v: Interval) -> bool {
    let most = gap(v);
    if minimum <= most {
        return true;
    }
    minimum - most == 1
}

// The span with this number, of 13 * 13.
fn span(k: u64) -> Interval {
    Interval {
        first: Chronon(minute(k / 13 % 13)),
        last: Chronon(minute(k % 13)),
    }
}

// One case more: the answer for the minimum with this number, and what it should be.
fn count(n: Counts, at: u64, answer: bool, wanted: bool) -> Counts {
    let mut affirmed = n.affirmed;
    let i = at as usize;
    if i < MINIMA {
        affirmed[i] = report::more_unless(!answer, affirmed[i]);
    }
    Counts {
        cases: report::more(n.cases),
        wrong: report::more_unless(answer == wanted, n.wrong),
        affirmed,
    }
}

// The span and the minimum with this number, of 169 * 13.
fn one_span(n: Counts, k: u64) -> Counts {
    let v = span(k / 13);
    let m = minimum(v, k % 13);
    count(n, k % 13, interval::time::durable(m, v), rule(m, v))
}

fn all_spans() -> Counts {
    let mut n = none();
    for k in 0..2_197 {
        n = one_span(n, k);
    }
    n
}

fn label(k: u64) -> u64 {
    let words = [0, 1, 217_180_147_158, 217_180_147_159];
    word(&words, k)
}

fn item(k: u64) -> u64 {
    let words = [0, 999_999, 1_000_000];
    word(&words, k)
}

// The rule of a row: every condition by itself.
fn row_rule(minimum: u64, r: Row) -> bool {
    let named = (0 < r.label) & (r.label < 217_180_147_159);
    let numbered = (r.outer < 1_000_000) & (r.inner < 1_000_000);
    let placed = (r.valid.first.0 <= r.valid.last.0) & (r.valid.last.0 < 100_000_000);
    named & numbered & placed & rule(minimum, r.valid)
}

// The row and the minimum with this number, of 4 * 3 * 3 * 169 * 13.
fn one_row(n: Counts, k: u64) -> Counts {
    let v = span(k / 13);
    let m = minimum(v, k % 13);
    let r = Row {
        label: label(k / 19_773),
        outer: item(k / 6_591 % 3),
        inner: item(k / 2_197 % 3),
        valid: v,
    };
    count(n, k % 13, interval::tuple::legal_row(m, r), row_rule(m, r))
}

fn all_rows() -> Counts {
    let mut n = none();
    for k in 0..79_092 {
        n = one_row(n, k);
    }
    n
}

fn line(rt: &impl Print, n: Counts) -> io::Result<()> {
    let affirmed = n.affirmed;
    report::number(rt, n.cases)?;
    report::number(rt, n.wrong)?;
    report::number(rt, affirmed[0])?;
    report::number(rt, affirmed[1])?;
    report::number(rt, affirmed[2])?;
    report::number(rt, affirmed[3])?;
    report::number(rt, affirmed[4])?;
    report::number(rt, affirmed[5])?;
    report::number(rt, affirmed[6])?;
    report::number(rt, affirmed[7])?;
    report::number(rt, affirmed[8])?;
    report::number(rt, affirmed[9])?;
    report::number(rt, affirmed[10])?;
    report::number(rt, affirmed[11])?;
    report::number(rt, affirmed[12])?;
    report::end(rt)
}

// The line minutes: spans with a minimum, those that differ, and for each minimum how many last so long.
pub(crate) fn run(rt: &impl Print) -> io::Result<()> {
    report::name(rt, "minutes")?;
    line(rt, all_spans())
}

// The line rows: rows with a minimum, those that differ, and for each minimum how many are legal.
pub(crate) fn run_rows(rt: &impl Print) -> io::Result<()> {
    report::name(rt, "rows")?;
    line(rt, all_rows())
}
