// Tuple checks 6, 7, 8 and 17: words at the ends of each range, in all combinations, against a rule written for the
// test.
use crate::report;
use interval::time::{Chronon, Interval};
use interval::tuple::Tuple;
use std::io;

#[derive(Clone, Copy)]
struct Counts {
    cases: u64,
    wrong: u64,
    legal: u64,
    sixes: u64,
    sevens: u64,
    eights: u64,
    seventeens: u64,
}

fn label(k: u64) -> u64 {
    match k {
        0 => 0,
        1 => 1,
        2 => 217_180_147_158,
        3 => 217_180_147_159,
        _ => 18_446_744_073_709_551_615,
    }
}

fn item(k: u64) -> u64 {
    match k {
        0 => 0,
        1 => 999_999,
        2 => 1_000_000,
        _ => 18_446_744_073_709_551_615,
    }
}

fn minute(k: u64) -> u64 {
    match k {
        0 => 0,
        1 => 1,
        2 => 99_999_998,
        3 => 99_999_999,
        4 => 100_000_000,
        _ => 18_446_744_073_709_551_615,
    }
}

// The rule: each condition is decided by itself, and of those that hold the one with the smallest number is left.
fn rule(t: Tuple) -> u64 {
    let no_label = (t.label == 0) | (t.label >= 217_180_147_159);
    let no_item = t.item >= 1_000_000;
    let backward = t.valid.first.0 > t.valid.last.0;
    let late = t.valid.last.0 >= 100_000_000;
    let span = report::either(backward, 8, report::either(late, 17, 0));
    report::either(no_label, 6, report::either(no_item, 7, span))
}

// The tuple with this number, of 5 * 4 * 6 * 6.
fn one_tuple(n: Counts, k: u64) -> Counts {
    let t = Tuple {
        label: label(k / 144),
        item: item(k / 36 % 4),
        valid: Interval {
            first: Chronon(minute(k / 6 % 6)),
            last: Chronon(minute(k % 6)),
        },
    };
    let answer = refusal::answer_number(interval::tuple::tuple_number(t));
    Counts {
        cases: report::more(n.cases),
        wrong: report::more_unless(answer == rule(t), n.wrong),
        legal: report::more_unless(answer != 0, n.legal),
        sixes: report::more_unless(answer != 6, n.sixes),
        sevens: report::more_unless(answer != 7, n.sevens),
        eights: report::more_unless(answer != 8, n.eights),
        seventeens: report::more_unless(answer != 17, n.seventeens),
    }
}

fn all_tuples() -> Counts {
    let mut n = Counts {
        cases: 0,
        wrong: 0,
        legal: 0,
        sixes: 0,
        sevens: 0,
        eights: 0,
        seventeens: 0,
    };
    for k in 0..720 {
        n = one_tuple(n, k);
    }
    n
}

// The line tuples: tuples, tuples that differ, and how many the crate answers with 0, 6, 7, 8 and 17.
pub(crate) fn run(rt: &impl Print) -> io::Result<()> {
    let n = all_tuples();
    report::name(rt, "tuples")?;
    report::number(rt, n.cases)?;
    report::number(rt, n.wrong)?;
    report::number(rt, n.legal)?;
    report::number(rt, n.sixes)?;
    report::number(rt, n.sevens)?;
    report::number(rt, n.eights)?;
    report::number(rt, n.seventeens)?;
    report::end(rt)
}
