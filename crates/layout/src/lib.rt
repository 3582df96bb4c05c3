// How a plan, a tuple with its side and the answers lie in a host's words, and the number that a call gets for the
// lengths of what it is lent beside the stores. include/ruthgarwy.h has it for C; the definitions are in
// specs/Layout.antt.
// A reader or writer of a plan asks for its length by a `requires`; a call tests it first.
#![tactic(auto)]

ghost use Rattle.std.specs.Prelude.{[], ◌∷◌, ◌++◌, ◌≡◌, ◌+◌, ◌≤◌, length, get_or, take, drop, IfOk};
ghost use Rattle.refusal.specs.Refusal.{answer_number};
ghost use Rattle.interval.specs.Tuple.{tuple};
ghost use Rattle.plan.specs.Plan.{most_partitions, numbers};
ghost use Rattle.layout.specs.Layout.{plan_head, minimum_place, plan_words, minutes, plan_in, words_of, told};
ghost use Rattle.layout.specs.Layout.{requirements_in};
ghost use Rattle.layout.specs.Layout.{side_of, lent_number};

use checks::Answer;
use interval::time::{Chronon, Interval};
use interval::tuple::Tuple;
use plan::{PLACES, Partitioning};
use refusal::Refusal;
use rows::Side;
use sweep_count::SweepSize;

// The words of a plan before its last minutes, before its minimum, and all.
const PLAN_HEAD: usize = 3;

const MINIMUM_PLACE: usize = PLAN_HEAD + PLACES;

const PLAN_WORDS: usize = MINIMUM_PLACE + 1;

// The words of an answer: of most calls, and of what a sweep requires.
pub const ANSWER_WORDS: usize = 3;

pub const REQUIREMENTS_WORDS: usize = 4;

// A plan's last minutes, from a place of a run of words on.
pub fn lasts_in(words: &[u64], from: usize) -> [Chronon; PLACES]
    requires { from + most_partitions ≤ length words.now }
    ensures { result ≡ minutes (take most_partitions (drop from words.now)) }
{
    let mut lasts = [Chronon(0); PLACES];
    for i in 0..PLACES {
        lasts[i] = Chronon(words[from + i]);
    }
    lasts
}

// The plan that its words say.
pub fn plan_in(words: &[u64]) -> Partitioning
    requires { length words.now ≡ plan_words }
    ensures { result ≡ plan_in words.now }
{
    let lasts = lasts_in(words, PLAN_HEAD);
    Partitioning {
        count: words[0],
        lasts,
        tuples: words[1],
        rows: words[2],
        minimum: words[MINIMUM_PLACE],
    }
}

pub fn side_of(side: u64) -> Side
    ensures { result ≡ side_of side }
{
    if side == 1 {
        return Side::Outer;
    }
    Side::Inner
}

pub fn tuple_of(label: u64, item: u64, first: u64, last: u64) -> Tuple
    ensures { result ≡ tuple label item first last }
{
    Tuple {
        label,
        item,
        valid: Interval {
            first: Chronon(first),
            last: Chronon(last),
        },
    }
}

// An answer's three words: its number and its two counts.
fn words_of(a: Answer) -> [u64; ANSWER_WORDS]
    ensures { result ≡ words_of a }
{
    match a {
        Ok(counted) => [0, counted.changed, counted.examined],
        Err(refusal) => [refusal.into(), 0, 0],
    }
}

// Writes words into a buffer of as many, and leaves another as it was; answers the first, 0 where there is none.
pub fn tell_words(words: &[u64], answer: &mut [u64]) -> u64
    ensures told_words { answer.new ≡ told answer.old words.now }
    ensures first { result ≡ get_or words.now 0 0 }
{
    if answer.len() == words.len() {
        answer.copy_from_slice(words);
    }
    if words.is_empty() {
        return 0;
    }
    words[0]
}

// Writes an answer's words, where as many are lent; answers its number.
pub fn tell(a: Answer, answer: &mut [u64]) -> u64
    ensures { (answer.new ≡ told answer.old (words_of a)) × (result ≡ answer_number a) }
{
    let words = words_of(a);
    tell_words(&words, answer)
}

// Writes what a sweep requires, where four words are lent; answers its number.
pub fn tell_requirements(number: u64, outer: u64, inner: u64, pairs: u64, answer: &mut [u64]) -> u64
    ensures { (answer.new ≡ told answer.old (number ∷ (outer ∷ (inner ∷ (pairs ∷ [])))))
        × (result ≡ number) }
{
    tell_words(&[number, outer, inner, pairs], answer)
}

// The same of what was counted for a sweep, or of its refusal, which has no needs and no pairs.
pub fn tell_size(r: Result<SweepSize, Refusal>, answer: &mut [u64]) -> u64
    ensures { (answer.new ≡ told answer.old (requirements_in r)) × (result ≡ answer_number r) }
{
    match r {
        Ok(size) => tell_requirements(0, size.outer, size.inner, size.pairs, answer),
        Err(refusal) => tell_requirements(refusal.into(), 0, 0, 0, answer),
    }
}

// The plan that a call is lent, given whether the lengths of the other buffers are right; or the number for lengths,
// that of the plan first.
pub fn lent_plan(plan: &[u64], right: bool) -> Result<Partitioning, Refusal>
    ensures number { answer_number result ≡ lent_number plan.now right }
    ensures plan { IfOk result (λ p. p ≡ plan_in plan.now) }
{
    if plan.len() != PLAN_WORDS {
        return Err(Refusal::Length);
    }
    let p = plan_in(plan);
    if right {
        return Ok(p);
    }
    plan::plan_number(p)?;
    Err(Refusal::Length)
}

// Puts last minutes into the words of a plan; every other word is kept.
pub fn put_lasts(lasts: [Chronon; PLACES], plan: &mut [u64])
    requires { length plan.old ≡ plan_words }
    ensures { plan.new
        ≡ take plan_head plan.old ++ (numbers lasts ++ drop minimum_place plan.old) }
{
    for place in 0..PLACES {
        let last = lasts[place];
        plan[PLAN_HEAD + place] = last.0;
    }
}
