// Sweeps, each with two caches of its own, of drawn lengths and full of a drawn word.
use crate::calls::{Call, Left};
use crate::stores::{ROW_WORDS, Stores};
use crate::{digest, stores, total};

const CACHE_WORDS: usize = 264;

// How many words of each cache are lent, and the word that it is full of.
#[derive(Clone, Copy)]
pub(crate) struct Caches {
    pub(crate) outer: u64,
    pub(crate) inner: u64,
    pub(crate) outer_word: u64,
    pub(crate) inner_word: u64,
}

pub(crate) fn none() -> Caches {
    Caches {
        outer: 0,
        inner: 0,
        outer_word: 0,
        inner_word: 0,
    }
}

// All 264 words, any number of them, those of 0 to 5 tuples, or one less than these.
fn length(w: u64) -> u64 {
    let any = w / 16 % 265;
    let need = total::times(4, w / 16 % 6);
    let short = total::either(w % 16 < 12, need, total::less(need));
    total::either(
        w % 16 < 6,
        CACHE_WORDS as u64,
        total::either(w % 16 == 6, any, short),
    )
}

pub(crate) fn drawn(d: &[u64]) -> Caches {
    Caches {
        outer: length(total::word(d, 25)),
        inner: length(total::word(d, 26)),
        outer_word: total::word(d, 27),
        inner_word: total::word(d, 28),
    }
}

// Takes in what must be as it was: on a refusal all words of the caches, else those that were not lent.
fn seen(
    number: u64,
    k: Caches,
    outer_cache: &[u64; CACHE_WORDS],
    inner_cache: &[u64; CACHE_WORDS],
) -> u64 {
    let all = CACHE_WORDS as u64;
    let outer = digest::run(0, outer_cache, total::either(number == 0, k.outer, 0), all);
    digest::run(
        outer,
        inner_cache,
        total::either(number == 0, k.inner, 0),
        all,
    )
}

// The sweep on the first words of each store and of each cache.
pub(crate) fn swept(c: Call, s: Stores) -> Left {
    let p = c.plan;
    let l = c.lengths;
    let k = c.caches;
    let outer = s.outer;
    let inner = s.inner;
    let mut rows = s.rows;
    let mut outer_cache = [k.outer_word; CACHE_WORDS];
    let mut inner_cache = [k.inner_word; CACHE_WORDS];
    let answer = join::sweep(
        p,
        total::lent(&outer, l.outer),
        total::lent(&inner, l.inner),
        total::lent_mut(&mut rows, l.rows),
        total::lent_mut(&mut outer_cache, k.outer),
        total::lent_mut(&mut inner_cache, k.inner),
    );
    Left {
        answer,
        plan: p,
        more: seen(
            refusal::answer_number(answer),
            k,
            &outer_cache,
            &inner_cache,
        ),
        stores: Stores { outer, inner, rows },
    }
}

// A sweep into a rows store of its own, whose words are 0. What it leaves there is taken in as well.
pub(crate) fn aside(c: Call, s: Stores) -> Left {
    let p = c.base;
    let zeros = [0u64; ROW_WORDS];
    let left = swept(c, stores::with_rows(s, zeros));
    let after = left.stores;
    let rows = after.rows;
    let answer = left.answer;
    let plan = left.plan;
    Left {
        answer,
        plan,
        more: digest::rows_store(left.more, p, true, &rows, &rows),
        stores: s,
    }
}
