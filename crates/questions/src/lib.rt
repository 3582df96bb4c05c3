// A screenful of questions (document 02, (g)): a lent list of questions, each with a place for its answer; the call
// makes each answer the number of stored rows with that label whose interval contains that chronon.
//
// Nothing has to be checked before calling, and a refusal changes no question. Checks come first, of the plan and the
// rows store, which is the only store lent; then the rows from the partition of the smallest legal minute up are read,
// each once for the whole list: rows outside, questions inside. No memory beyond what is lent.
// Cost: check 5 of the rows store, and for each row that has a chronon in common with the questions' window a
// comparison with each question.
//
// The slice of structs is the form that document 01 names: its functions are thin walks over functions of one question
// (crate question) and of a cursor over the rows store (crate cursor). The definitions are in specs/Answered.
#![tactic(auto)]

ghost use Rattle.std.specs.Prelude.{true, map, ◌≡◌, length};
ghost use Rattle.store.specs.Store.{stored_rows};
ghost use Rattle.checks.specs.Stores.{rows_number};
ghost use Rattle.cursor.specs.Cursor.{chosen, Scannable};
ghost use Rattle.question.specs.Question.{with_answer, answered, rows_read};
ghost use Rattle.question.specs.Steps.{room_for, with_row, after_rows, window_of};
ghost use Rattle.questions.specs.Answered.{QuestionsAnswered};

use checks::{Answer, Counted};
use cursor::Scan;
use interval::time::Interval;
use interval::tuple::Row;
use plan::Partitioning;
use question::Question;

// Makes every answer 0; answers the window of the questions' legal minutes.
fn begin(qs: &mut [Question]) -> Interval
    ensures { (qs.new ≡ map (with_answer 0) qs.old) × (result ≡ window_of qs.old) }
{
    let mut window = question::no_window();
    for q in qs.iter_mut() {
        window = question::widened(window, *q);
        *q = question::cleared(*q);
    }
    window
}

// One row, read once, for the whole list of questions.
fn count_row(qs: &mut [Question], r: Row)
    requires { room_for 1 qs.old ≡ true }
    ensures { qs.new ≡ map (with_row r) qs.old }
{
    for q in qs.iter_mut() {
        *q = question::with_row(*q, r);
    }
}

// The rows that a scan hands out, each read once, for the whole list of questions.
fn count_rows(rows: &[u64], scan: Scan, qs: &mut [Question])
    requires { Scannable scan rows.now × (room_for (length (chosen scan rows.now)) qs.old ≡ true) }
    ensures { qs.new ≡ after_rows (chosen scan rows.now) qs.old }
{
    let mut at = cursor::first(rows, scan);
    while let Some(c) = at {
        count_row(qs, c.row);
        at = cursor::next(rows, scan, c);
    }
}

// The answers from a rows store that passed its checks; answers how many rows were read.
fn answer_sound(p: Partitioning, rows: &[u64], qs: &mut [Question]) -> u64
    requires { rows_number p rows.now ≡ 0 }
    ensures { (qs.new ≡ map (answered (stored_rows p rows.now)) qs.old)
        × (result ≡ rows_read p rows.now qs.old) }
{
    let window = begin(qs);
    let scan = question::scan_of(p, window);
    count_rows(rows, scan, qs);
    cursor::stored(rows, scan)
}

// The answers to a list of questions: the call.
pub fn answer(p: Partitioning, rows: &[u64], qs: &mut [Question]) -> Answer
    ensures { QuestionsAnswered p rows.now qs.old qs.new result }
{
    checks::rows_number(p, rows)?;
    let read = answer_sound(p, rows, qs);
    Ok(Counted {
        changed: 0,
        examined: read,
    })
}
