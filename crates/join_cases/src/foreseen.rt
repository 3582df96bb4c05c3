// What a sweep will take, asked before a step's call: of the same plan and the same lengths of the tuple stores, with a
// report of its own, of a drawn length and full of a drawn word.
use crate::calls::Call;
use crate::stores::Stores;
use crate::{digest, total};
use requirements::Requirements;

const REPORT_WORDS: usize = 66;

// What was reported: the number, and a digest of all of it.
#[derive(Clone, Copy)]
pub(crate) struct Reported {
    pub(crate) number: u64,
    pub(crate) digest: u64,
}

// A word for each of n lanes; else one less or one more, none or 64, or any number of them.
fn length(n: u64, w: u64) -> u64 {
    let more = total::either(w % 16 == 13, total::plus(n, 1), n);
    let near = total::either(w % 16 == 12, total::less(n), more);
    let ends = total::either(w / 16 % 2 < 1, 0, 64);
    total::either(
        w % 16 < 14,
        near,
        total::either(w % 16 == 14, ends, w / 16 % 67),
    )
}

// Takes in the answer, and every word of the report.
fn seen(h: u64, r: Requirements, report: &[u64; REPORT_WORDS]) -> Reported {
    let number = refusal::answer_number(r);
    let sizes = match r {
        Ok(size) => [size.outer, size.inner, size.pairs],
        Err(_) => [0, 0, 0],
    };
    let told = digest::run(digest::mix(h, number), &sizes, 0, 3);
    Reported {
        number,
        digest: digest::run(told, report, 0, REPORT_WORDS as u64),
    }
}

// The call on the first words of each store and of the report.
pub(crate) fn told(h: u64, c: Call, s: Stores, d: &[u64]) -> Reported {
    let base = c.base;
    let p = c.plan;
    let l = c.lengths;
    let outer = s.outer;
    let inner = s.inner;
    let mut report = [total::word(d, 28); REPORT_WORDS];
    let r = requirements::of_sweep(
        p,
        total::lent(&outer, l.outer),
        total::lent(&inner, l.inner),
        total::lent_mut(&mut report, length(base.count, total::word(d, 27))),
    );
    seen(h, r, &report)
}
