// The calls for C and Rust hosts, on words: a static library. include/ruthgarwy.h describes it for C.
//
// A plan is 68 words: the lane count, the tuple capacity, the row capacity, then 64 places for last minutes, and the
// minimum. A tuple is handed over as four words, its side as one: 1 for drawings, anything else for spots. An answer is
// three words: the refusal number and the two counts; what a sweep requires is four: the number, each side's need and
// the pairs. A question is three: label, minute, answer; a record of a gap is a tuple's four. The number is also
// returned. A plan of another length says nothing and is refused with 4; an answer or new last minutes of another
// length are refused with 4 after the plan's own numbers, 1 to 3 and 18, and so are words that are no whole number of
// questions. The answer's words are written by every call that is lent as many; every other buffer only where a call is
// accepted.
// Nothing has to be checked before calling; each slice is an address and a length in words.
#![tactic(auto)]

ghost use Rattle.interval.specs.Tuple.{tuple};
ghost use Rattle.join.specs.declared.Kind.TheVariants.{Insert, Delete};
ghost use Rattle.layout.specs.Layout.{side_of};
ghost use Rattle.exports.specs.Exports.{OpenExported, ChangeExported, SweepExported, CutsExported};
ghost use Rattle.exports.specs.Exports.{RequirementsExported, QuestionsExported, GapsExported};

use interval::tuple::Tuple;
use join::Kind;
use layout::{ANSWER_WORDS, REQUIREMENTS_WORDS};
use plan::PLACES;
use rows::Side;

// Open.
#[unsafe(no_mangle)]
pub extern "C" fn ruthgarwy_open(
    plan: &[u64],
    outer: &mut [u64],
    inner: &mut [u64],
    rows: &mut [u64],
    answer: &mut [u64],
) -> u64
    ensures { OpenExported plan.now
        outer.old inner.old rows.old answer.old
        outer.new inner.new rows.new answer.new result }
{
    let p = match layout::lent_plan(plan, answer.len() == ANSWER_WORDS) {
        Ok(p) => p,
        Err(refusal) => return layout::tell(Err(refusal), answer),
    };
    let a = join::open(p, outer, inner, rows);
    layout::tell(a, answer)
}

// A change of either kind.
fn change(
    kind: Kind,
    plan: &[u64],
    side: Side,
    t: Tuple,
    outer: &mut [u64],
    inner: &mut [u64],
    rows: &mut [u64],
    answer: &mut [u64],
) -> u64
    ensures { ChangeExported kind plan.now side t
        outer.old inner.old rows.old answer.old
        outer.new inner.new rows.new answer.new result }
{
    let p = match layout::lent_plan(plan, answer.len() == ANSWER_WORDS) {
        Ok(p) => p,
        Err(refusal) => return layout::tell(Err(refusal), answer),
    };
    let a = join::change(kind, p, side, t, outer, inner, rows);
    layout::tell(a, answer)
}

// Insert a tuple on a side.
#[unsafe(no_mangle)]
pub extern "C" fn ruthgarwy_insert(
    plan: &[u64],
    side: u64,
    label: u64,
    item: u64,
    first: u64,
    last: u64,
    outer: &mut [u64],
    inner: &mut [u64],
    rows: &mut [u64],
    answer: &mut [u64],
) -> u64
    ensures { ChangeExported Insert plan.now (side_of side) (tuple label item first last)
        outer.old inner.old rows.old answer.old
        outer.new inner.new rows.new answer.new result }
{
    let new = layout::tuple_of(label, item, first, last);
    change(
        Kind::Insert,
        plan,
        layout::side_of(side),
        new,
        outer,
        inner,
        rows,
        answer,
    )
}

// Withdraw a tuple on a side.
#[unsafe(no_mangle)]
pub extern "C" fn ruthgarwy_delete(
    plan: &[u64],
    side: u64,
    label: u64,
    item: u64,
    first: u64,
    last: u64,
    outer: &mut [u64],
    inner: &mut [u64],
    rows: &mut [u64],
    answer: &mut [u64],
) -> u64
    ensures { ChangeExported Delete plan.now (side_of side) (tuple label item first last)
        outer.old inner.old rows.old answer.old
        outer.new inner.new rows.new answer.new result }
{
    let gone = layout::tuple_of(label, item, first, last);
    change(
        Kind::Delete,
        plan,
        layout::side_of(side),
        gone,
        outer,
        inner,
        rows,
        answer,
    )
}

// Sweep, with two lent caches.
#[unsafe(no_mangle)]
pub extern "C" fn ruthgarwy_sweep(
    plan: &[u64],
    outer: &[u64],
    inner: &[u64],
    rows: &mut [u64],
    outer_cache: &mut [u64],
    inner_cache: &mut [u64],
    answer: &mut [u64],
) -> u64
    ensures { SweepExported plan.now
        outer.now inner.now rows.old
        outer_cache.old inner_cache.old answer.old
        rows.new outer_cache.new inner_cache.new answer.new result }
{
    let p = match layout::lent_plan(plan, answer.len() == ANSWER_WORDS) {
        Ok(p) => p,
        Err(refusal) => return layout::tell(Err(refusal), answer),
    };
    let a = join::sweep(p, outer, inner, rows, outer_cache, inner_cache);
    layout::tell(a, answer)
}

// Recut: where it is accepted, moves tuples and rows to their new lanes and puts the new plan's last minutes into the
// plan's words.
#[unsafe(no_mangle)]
pub extern "C" fn ruthgarwy_repartition(
    plan: &mut [u64],
    cuts: &[u64],
    outer: &mut [u64],
    inner: &mut [u64],
    rows: &mut [u64],
    answer: &mut [u64],
) -> u64
    ensures { CutsExported plan.old cuts.now
        outer.old inner.old rows.old answer.old
        plan.new outer.new inner.new rows.new answer.new result }
{
    let fits = answer.len() == ANSWER_WORDS;
    let p = match layout::lent_plan(plan, fits & (cuts.len() == PLACES)) {
        Ok(p) => p,
        Err(refusal) => return layout::tell(Err(refusal), answer),
    };
    let new = join::repartition(p, layout::lasts_in(cuts, 0), outer, inner, rows);
    let a = new.answer;
    if a.is_err() {
        return layout::tell(a, answer);
    }
    let next = new.plan;
    let lasts = next.lasts;
    layout::put_lasts(lasts, plan);
    layout::tell(a, answer)
}

// What a sweep will take.
#[unsafe(no_mangle)]
pub extern "C" fn ruthgarwy_requirements(
    plan: &[u64],
    outer: &[u64],
    inner: &[u64],
    report: &mut [u64],
    answer: &mut [u64],
) -> u64
    ensures { RequirementsExported plan.now
        outer.now inner.now report.old answer.old
        report.new answer.new result }
{
    let p = match layout::lent_plan(plan, answer.len() == REQUIREMENTS_WORDS) {
        Ok(p) => p,
        Err(refusal) => return layout::tell_size(Err(refusal), answer),
    };
    let r = requirements::of_sweep(p, outer, inner, report);
    layout::tell_size(r, answer)
}

// A screenful of questions.
#[unsafe(no_mangle)]
pub extern "C" fn ruthgarwy_questions(
    plan: &[u64],
    rows: &[u64],
    questions: &mut [u64],
    answer: &mut [u64],
) -> u64
    ensures { QuestionsExported plan.now
        rows.now questions.old answer.old
        questions.new answer.new result }
{
    let p = match layout::lent_plan(plan, answer.len() == ANSWER_WORDS) {
        Ok(p) => p,
        Err(refusal) => return layout::tell(Err(refusal), answer),
    };
    let a = question_words::answer(p, rows, questions);
    layout::tell(a, answer)
}

// Minutes without a spot.
#[unsafe(no_mangle)]
pub extern "C" fn ruthgarwy_gaps(
    plan: &[u64],
    outer: &[u64],
    inner: &[u64],
    gaps: &mut [u64],
    answer: &mut [u64],
) -> u64
    ensures { GapsExported plan.now
        outer.now inner.now gaps.old answer.old
        gaps.new answer.new result }
{
    let p = match layout::lent_plan(plan, answer.len() == ANSWER_WORDS) {
        Ok(p) => p,
        Err(refusal) => return layout::tell(Err(refusal), answer),
    };
    let a = gaps::list(p, outer, inner, gaps);
    layout::tell(a, answer)
}
